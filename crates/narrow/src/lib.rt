// Word forms of the operators, for vectors of at most 64 bits: a word of each plane in, a word pair or an answer out. Nothing is asked of
// the words: a form that takes a width does not see the bits at or above it, the others see all 64 places.
#![tactic(auto)]

ghost use Rattle.std.specs.Prelude.{◌≡◌, min};
ghost use Rattle.words.specs.Planes.{vector_of, planes_of, width_mask};
ghost use Rattle.lanes.specs.Lanes.{not_word};
ghost use Rattle.reduce_words.specs.Fold.{reduce_and, reduce_or, reduce_xor, truth_of, truth_by_words};
ghost use Rattle.bitwise_words.specs.Joined.{joined, inverted};
ghost use Rattle.compare_words.specs.Compared.{compared};
ghost use Rattle.narrow.specs.Narrow.{single, plain64};

use bit::LogicBit;
use compare_words::Comparison;
use lanes::Bitwise;
use reduce_words::Truth;
use words::Word;
use words::unchecked::{least, ones};

// The operator at each of the 64 places.
pub fn join(op: Bitwise, a: Word, b: Word) -> Word
    ensures { single result ≡ planes_of (joined op (plain64 a) (plain64 b)) }
{
    lanes::lanes(op, a, b)
}

// Not of the bits below the width, which counts as 64 where it is larger; the other bits of the result are 0. By words, and by bits.
pub fn not(width: u32, a: Word) -> Word
    ensures value { result ≡ not_word a (width_mask width 0) }
    ensures result_value { single result ≡ planes_of (inverted (vector_of (min 64 width) (single a))) }
{
    lanes::not_lanes(a, ones(least(64, width as usize)))
}

// Of the bits below the width, which counts as 64 where it is larger: 0 on any known 0, else x on any unknown bit, else 1.
pub fn reduce_and(width: u32, a: Word) -> LogicBit
    ensures { result ≡ reduce_and (vector_of (min 64 width) (single a)) }
{
    let n = least(64, width as usize);
    let m = ones(n);
    let v = a.value;
    let u = a.unknown;
    if (!(v | u) & m) != 0 {
        return LogicBit::Zero;
    }
    if (u & m) != 0 {
        return LogicBit::X;
    }
    LogicBit::One
}

// True on a known 1, else unknown on an unknown bit, else false. By words, and by bits.
pub fn truth(a: Word) -> Truth
    ensures value { result ≡ truth_by_words (single a) }
    ensures value_2 { result ≡ truth_of (vector_of 64 (single a)) }
{
    let u = a.unknown;
    if lanes::known_ones(a) != 0 {
        return Truth::True;
    }
    if u != 0 {
        return Truth::Unknown;
    }
    Truth::False
}

// 1 on any known 1, else x on any unknown bit, else 0.
#[tactic(auto, using(reduce_words::proofs::Folds::truth_or))]
pub fn reduce_or(a: Word) -> LogicBit
    ensures { result ≡ reduce_or (vector_of 64 (single a)) }
{
    LogicBit::from(truth(a))
}

// x on any unknown bit, else whether the number of ones is odd.
pub fn reduce_xor(a: Word) -> LogicBit
    ensures { result ≡ reduce_xor (vector_of 64 (single a)) }
{
    if a.unknown != 0 {
        return LogicBit::X;
    }
    if u64::count_ones(a.value) % 2 == 0 {
        return LogicBit::Zero;
    }
    LogicBit::One
}

// The comparison of the 64 places of both words.
pub fn compare(op: Comparison, a: Word, b: Word) -> LogicBit
    ensures { result ≡ compared op (plain64 a) (plain64 b) }
{
    compare_words::unchecked::compare_words(op, a, b, 64)
}
