// The reductions of a vector to one bit.
#![tactic(auto)]

ghost use Rattle.std.specs.Prelude.{◌≡◌};
ghost use Rattle.words.specs.Planes.{lent_by};
ghost use Rattle.refusal.specs.Outcome.{answer};
ghost use Rattle.reduce_words.specs.Fold.{reduce_and, reduce_or, reduce_xor};
ghost use Rattle.reduce.specs.Reduce.{reduction};

use bit::LogicBit;
use reduce_words::unchecked::{and_bits, or_bits, xor_bits};
use refusal::Refusal;
use value::{Header, check_vector};

// 0 on any known 0, else x on any unknown bit, else 1.
#[tactic(auto, using(value::proofs::Checks::vector_accepted))]
pub fn reduce_and(h: Header, value: &[u64], unknown: &[u64]) -> Result<LogicBit, Refusal>
    ensures { answer result ≡ reduction reduce_and h (lent_by value.now unknown.now) }
{
    check_vector(h, value, unknown)?;
    Ok(and_bits(h.width, value, unknown))
}

// 1 on any known 1, else x on any unknown bit, else 0.
#[tactic(auto, using(value::proofs::Checks::vector_accepted))]
pub fn reduce_or(h: Header, value: &[u64], unknown: &[u64]) -> Result<LogicBit, Refusal>
    ensures { answer result ≡ reduction reduce_or h (lent_by value.now unknown.now) }
{
    check_vector(h, value, unknown)?;
    Ok(or_bits(h.width, value, unknown))
}

// x on any unknown bit, else whether the number of ones is odd.
#[tactic(auto, using(value::proofs::Checks::vector_accepted))]
pub fn reduce_xor(h: Header, value: &[u64], unknown: &[u64]) -> Result<LogicBit, Refusal>
    ensures { answer result ≡ reduction reduce_xor h (lent_by value.now unknown.now) }
{
    check_vector(h, value, unknown)?;
    Ok(xor_bits(h.width, value, unknown))
}
