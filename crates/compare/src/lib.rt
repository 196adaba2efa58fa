// Whether two operands are equal, in one bit: equality, case, casez and casex equality, and wildcard equality.
#![tactic(auto)]

ghost use Rattle.std.specs.Prelude.{◌≡◌};
ghost use Rattle.words.specs.Planes.{lent_by};
ghost use Rattle.refusal.specs.Outcome.{answer};
ghost use Rattle.compare_words.specs.declared.Comparison.TheVariants.{CaseEqual, CasezEqual, CasexEqual, WildcardEqual};
ghost use Rattle.compare.specs.Compare.{comparison, is_equal};

use bit::LogicBit;
use compare_words::Comparison;
use compare_words::unchecked::compare;
use real_equal::unchecked::equal_reals;
use refusal::Refusal;
use value::{Header, Operand, check_pair};

// The comparison of two vectors of any widths.
#[tactic(auto, using(value::proofs::Checks::pair_accepted))]
pub fn compare_vectors(
    op: Comparison,
    a: Header,
    av: &[u64],
    au: &[u64],
    b: Header,
    bv: &[u64],
    bu: &[u64],
) -> Result<LogicBit, Refusal>
    ensures { answer result
        ≡ comparison op a (lent_by av.now au.now) b (lent_by bv.now bu.now) }
{
    check_pair(a, av, au, b, bv, bu)?;
    Ok(compare(op, a, av, au, b, bv, bu))
}

// 0 if two known bits differ, else x on any unknown bit, else 1. Where either operand is a real, both count as reals.
#[tactic(auto, unfolding(value::specs::Checks::check_operand))]
pub fn is_equal(
    a: Operand,
    av: &[u64],
    au: &[u64],
    b: Operand,
    bv: &[u64],
    bu: &[u64],
) -> Result<LogicBit, Refusal>
    ensures { answer result
        ≡ is_equal a (lent_by av.now au.now) b (lent_by bv.now bu.now) }
{
    match (a, b) {
        (Operand::Vector(h), Operand::Vector(g)) => {
            compare_vectors(Comparison::Equal, h, av, au, g, bv, bu)
        }
        _ => equal_reals(a, av, au, b, bv, bu),
    }
}

// 1 if the bit codes are the same at every place, else 0.
pub fn case_eq(
    a: Header,
    av: &[u64],
    au: &[u64],
    b: Header,
    bv: &[u64],
    bu: &[u64],
) -> Result<LogicBit, Refusal>
    ensures { answer result
        ≡ comparison CaseEqual a (lent_by av.now au.now) b (lent_by bv.now bu.now) }
{
    compare_vectors(Comparison::CaseEqual, a, av, au, b, bv, bu)
}

// As case equality, but places with z on either side are skipped.
pub fn casez_eq(
    a: Header,
    av: &[u64],
    au: &[u64],
    b: Header,
    bv: &[u64],
    bu: &[u64],
) -> Result<LogicBit, Refusal>
    ensures { answer result
        ≡ comparison CasezEqual a (lent_by av.now au.now) b (lent_by bv.now bu.now) }
{
    compare_vectors(Comparison::CasezEqual, a, av, au, b, bv, bu)
}

// As case equality, but places with x or z on either side are skipped.
pub fn casex_eq(
    a: Header,
    av: &[u64],
    au: &[u64],
    b: Header,
    bv: &[u64],
    bu: &[u64],
) -> Result<LogicBit, Refusal>
    ensures { answer result
        ≡ comparison CasexEqual a (lent_by av.now au.now) b (lent_by bv.now bu.now) }
{
    compare_vectors(Comparison::CasexEqual, a, av, au, b, bv, bu)
}

// Places where the right bit is unknown are skipped: 0 if two known bits differ, else x if a compared left bit is unknown, else 1.
pub fn wildcard_eq(
    a: Header,
    av: &[u64],
    au: &[u64],
    b: Header,
    bv: &[u64],
    bu: &[u64],
) -> Result<LogicBit, Refusal>
    ensures { answer result
        ≡ comparison WildcardEqual a (lent_by av.now au.now) b (lent_by bv.now bu.now) }
{
    compare_vectors(Comparison::WildcardEqual, a, av, au, b, bv, bu)
}
