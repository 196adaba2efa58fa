// The truth of an operand, a vector or a real, and the logical operators on the truths of two.
#![tactic(auto)]

ghost use Rattle.std.specs.Prelude.{◌≡◌, cond};
ghost use Rattle.bit.specs.Rules.{and_bit, or_bit};
ghost use Rattle.words.specs.Planes.{lent_by};
ghost use Rattle.value.specs.declared.Operand.TheVariants.{Vector, Real};
ghost use Rattle.refusal.specs.Outcome.{answer};
ghost use Rattle.truth.specs.Truth.{is_nonzero};
ghost use Rattle.truth.specs.Logic.{combined, logic_and, logic_or};

use bit::LogicBit;
use reduce_words::Truth;
use reduce_words::unchecked::truth;
use refusal::Refusal;
use value::{Header, Operand, check_operand, check_vector};

// The truth of a vector.
#[tactic(auto, using(value::proofs::Checks::vector_accepted), unfolding(value::specs::Checks::check_operand))]
fn vector_truth(h: Header, value: &[u64], unknown: &[u64]) -> Result<Truth, Refusal>
    ensures { answer result ≡ is_nonzero (Vector h) (lent_by value.now unknown.now) }
{
    check_vector(h, value, unknown)?;
    Ok(truth(h.width, value, unknown))
}

// The truth of a real.
fn real_truth(x: f64, value: &[u64], unknown: &[u64]) -> Result<Truth, Refusal>
    ensures { answer result ≡ is_nonzero (Real x) (lent_by value.now unknown.now) }
{
    check_operand(Operand::Real(x), value, unknown)?;
    if x != 0.0 {
        return Ok(Truth::True);
    }
    Ok(Truth::False)
}

// True on a known 1, else unknown on an unknown bit, else false; a real is true if not equal to 0.
pub fn is_nonzero(o: Operand, value: &[u64], unknown: &[u64]) -> Result<Truth, Refusal>
    ensures { answer result ≡ is_nonzero o (lent_by value.now unknown.now) }
{
    match o {
        Operand::Vector(h) => vector_truth(h, value, unknown),
        Operand::Real(x) => real_truth(x, value, unknown),
    }
}

// The truths of two operands, combined by the rule of and, or by that of or.
fn combine(
    by_and: bool,
    a: Operand,
    av: &[u64],
    au: &[u64],
    b: Operand,
    bv: &[u64],
    bu: &[u64],
) -> Result<LogicBit, Refusal>
    ensures { answer result
        ≡ combined (cond by_and and_bit or_bit) a (lent_by av.now au.now) b (lent_by bv.now bu.now) }
{
    let left = LogicBit::from(is_nonzero(a, av, au)?);
    let right = LogicBit::from(is_nonzero(b, bv, bu)?);
    if by_and {
        return Ok(bit::and(left, right));
    }
    Ok(bit::or(left, right))
}

// 0 if either operand is false, 1 if both are true, else x.
pub fn logic_and(
    a: Operand,
    av: &[u64],
    au: &[u64],
    b: Operand,
    bv: &[u64],
    bu: &[u64],
) -> Result<LogicBit, Refusal>
    ensures { answer result
        ≡ logic_and a (lent_by av.now au.now) b (lent_by bv.now bu.now) }
{
    combine(true, a, av, au, b, bv, bu)
}

// 1 if either operand is true, 0 if both are false, else x.
pub fn logic_or(
    a: Operand,
    av: &[u64],
    au: &[u64],
    b: Operand,
    bv: &[u64],
    bu: &[u64],
) -> Result<LogicBit, Refusal>
    ensures { answer result
        ≡ logic_or a (lent_by av.now au.now) b (lent_by bv.now bu.now) }
{
    combine(false, a, av, au, b, bv, bu)
}
