// The reductions and truth by words. These ask their caller for planes that were checked.
ghost use Rattle.std.specs.Prelude.{◌≡◌};
ghost use Rattle.words.specs.Planes.{from_planes, lent_by, Plane};
ghost use Rattle.reduce_words.specs.Fold.{reduce_and, reduce_or, reduce_xor, truth_of, truth_by_words};

use crate::Truth;
use bit::LogicBit;
use lanes::known_ones;
use words::Word;
use words::unchecked::ones;

// True on a known 1, else unknown on an unknown bit, else false. By words, and by bits: the width is told for these alone, since no place
// at or above it is set.
pub fn truth(width: u32, value: &[u64], unknown: &[u64]) -> Truth
    requires plane { Plane width value.now }
    requires plane_2 { Plane width unknown.now }
    ensures value { result ≡ truth_by_words (lent_by value.now unknown.now) }
    ensures value_2 { result ≡ truth_of (from_planes width value.now unknown.now) }
{
    let mut seen = 0;
    for k in 0..value.len() {
        let a = Word {
            value: value[k],
            unknown: unknown[k],
        };
        let u = a.unknown;
        if known_ones(a) != 0 {
            return Truth::True;
        }
        seen |= u;
    }
    if seen != 0 {
        return Truth::Unknown;
    }
    Truth::False
}

// 0 on any known 0, else x on any unknown bit, else 1.
pub fn and_bits(width: u32, value: &[u64], unknown: &[u64]) -> LogicBit
    requires plane { Plane width value.now }
    requires plane_2 { Plane width unknown.now }
    ensures { result ≡ reduce_and (from_planes width value.now unknown.now) }
{
    let last = value.len() - 1;
    let mut seen = 0;
    for k in 0..last {
        let u = unknown[k];
        if !(value[k] | u) != 0 {
            return LogicBit::Zero;
        }
        seen |= u;
    }
    let u = unknown[last];
    let n = width as usize - last * 64;
    let m = ones(n);
    if (!(value[last] | u) & m) != 0 {
        return LogicBit::Zero;
    }
    if (seen | u) != 0 {
        return LogicBit::X;
    }
    LogicBit::One
}

// 1 on any known 1, else x on any unknown bit, else 0.
#[tactic(auto, using(crate::proofs::Folds::truth_or))]
pub fn or_bits(width: u32, value: &[u64], unknown: &[u64]) -> LogicBit
    requires plane { Plane width value.now }
    requires plane_2 { Plane width unknown.now }
    ensures { result ≡ reduce_or (from_planes width value.now unknown.now) }
{
    LogicBit::from(truth(width, value, unknown))
}

// x on any unknown bit, else whether the number of ones is odd.
pub fn xor_bits(width: u32, value: &[u64], unknown: &[u64]) -> LogicBit
    requires plane { Plane width value.now }
    requires plane_2 { Plane width unknown.now }
    ensures { result ≡ reduce_xor (from_planes width value.now unknown.now) }
{
    let mut sum = 0;
    for k in 0..value.len() {
        let v = value[k];
        if unknown[k] != 0 {
            return LogicBit::X;
        }
        sum ^= v;
    }
    if u64::count_ones(sum) % 2 == 0 {
        LogicBit::Zero
    } else {
        LogicBit::One
    }
}
