// The operators on single words: each of the 64 places by its single-bit rule, in a few word operations. One function for each operator,
// the choice among those of two words, and the places that hold a known 1.
#![tactic(auto)]

ghost use Rattle.std.specs.Prelude.{◌≡◌};
ghost use Rattle.bit.specs.Rules.{and_bit, or_bit, xor_bit, merge_bit};
ghost use Rattle.lanes.specs.Lanes.{op_bit, lane_word, not_word, known_ones};

use words::Word;

// An operator that joins two vectors place by place.
#[derive(Clone, Copy)]
pub enum Bitwise {
    And,
    Or,
    Xor,
    Merge,
}

// And: a known 0 on either side gives 0, two known 1s give 1, anything else is x.
pub fn and_lanes(a: Word, b: Word) -> Word
    ensures { result ≡ lane_word and_bit a b }
{
    let av = a.value;
    let au = a.unknown;
    let bv = b.value;
    let bu = b.unknown;
    let one = av & !au & bv & !bu;
    Word {
        value: one,
        unknown: (av | au) & (bv | bu) & !one,
    }
}

// Or: a known 1 on either side gives 1, two known 0s give 0, anything else is x.
pub fn or_lanes(a: Word, b: Word) -> Word
    ensures { result ≡ lane_word or_bit a b }
{
    let av = a.value;
    let au = a.unknown;
    let bv = b.value;
    let bu = b.unknown;
    let one = (av & !au) | (bv & !bu);
    Word {
        value: one,
        unknown: (au | bu) & !one,
    }
}

// Xor: whether two known bits differ; x where either is unknown.
pub fn xor_lanes(a: Word, b: Word) -> Word
    ensures { result ≡ lane_word xor_bit a b }
{
    let av = a.value;
    let au = a.unknown;
    let bv = b.value;
    let bu = b.unknown;
    Word {
        value: (av ^ bv) & !(au | bu),
        unknown: au | bu,
    }
}

// Merge: the bit where both are known and equal, anything else is x.
pub fn merge_lanes(a: Word, b: Word) -> Word
    ensures { result ≡ lane_word merge_bit a b }
{
    let av = a.value;
    let au = a.unknown;
    let bv = b.value;
    let bu = b.unknown;
    let differ = (au | bu) | (av ^ bv);
    Word {
        value: av & !differ,
        unknown: differ,
    }
}

// Not, at the places where the mask has a one: 0 and 1 exchanged, x where the bit is unknown. The other places are 0.
pub fn not_lanes(a: Word, mask: u64) -> Word
    ensures { result ≡ not_word a mask }
{
    let v = a.value;
    let u = a.unknown;
    Word {
        value: !(v | u) & mask,
        unknown: u & mask,
    }
}

// A one at each place that holds a known 1.
pub fn known_ones(a: Word) -> u64
    ensures { result ≡ known_ones a }
{
    a.value & !a.unknown
}

// The choice among the four that join, for callers that serve every operator with one loop; it holds no formula of its own.
pub fn lanes(op: Bitwise, a: Word, b: Word) -> Word
    ensures { result ≡ lane_word (op_bit op) a b }
{
    match op {
        Bitwise::And => and_lanes(a, b),
        Bitwise::Or => or_lanes(a, b),
        Bitwise::Xor => xor_lanes(a, b),
        Bitwise::Merge => merge_lanes(a, b),
    }
}
