// Equality and wildcard equality that tell, beside the bit, which rule decided.
#![tactic(auto)]

ghost use Rattle.std.specs.Prelude.{◌≡◌};
ghost use Rattle.words.specs.Planes.{lent_by};
ghost use Rattle.value.specs.declared.Operand.TheVariants.{Vector};
ghost use Rattle.refusal.specs.Outcome.{answer};
ghost use Rattle.decide.specs.declared.Rule.TheVariants.{Numeric};
ghost use Rattle.decide.specs.Decide.{with_rule, decide_equal, decide_wildcard, found_rule, decide_scanned};

use bit::LogicBit;
use compare_words::unchecked::scan;
use compare_words::{Comparison, Found};
use real_equal::unchecked::equal_reals;
use refusal::Refusal;
use value::{Header, Operand, check_pair};

// The lowest place that holds two different known bits; if there is none, the lowest compared place that holds an unknown bit; if there is
// none either, all compared places are equal. Numeric where an operand is a real.
#[derive(Clone, Copy)]
pub enum Rule {
    KnownMismatch(u32),
    Unknown(u32),
    AllEqual,
    Numeric,
}

// The bit of a comparison, and the rule that decided.
#[derive(Clone, Copy)]
pub struct Decision {
    pub bit: LogicBit,
    pub rule: Rule,
}

// The rule by what the scan found.
impl From<Found> for Rule {
    ghost from_gives = { λ f r. r ≡ found_rule f };

    fn from(found: Found) -> Rule {
        match found {
            Found::Mismatch(i) => Rule::KnownMismatch(i),
            Found::Unsure(i) => Rule::Unknown(i),
            Found::Same => Rule::AllEqual,
        }
    }
}

// Two vectors: one scan gives the bit and the rule.
#[tactic(auto, using(value::proofs::Checks::pair_accepted, compare_words::proofs::Places::answer_found))]
fn decide_scanned(
    op: Comparison,
    a: Header,
    av: &[u64],
    au: &[u64],
    b: Header,
    bv: &[u64],
    bu: &[u64],
) -> Result<Decision, Refusal>
    ensures { answer result
        ≡ decide_scanned op a (lent_by av.now au.now) b (lent_by bv.now bu.now) }
{
    check_pair(a, av, au, b, bv, bu)?;
    let found = scan(op, a, av, au, b, bv, bu);
    Ok(Decision {
        bit: LogicBit::from(found),
        rule: Rule::from(found),
    })
}

// A bit by the rule "numeric"; a refusal stays.
fn numeric(a: Result<LogicBit, Refusal>) -> Result<Decision, Refusal>
    ensures { answer result ≡ with_rule Numeric (answer a) }
{
    Ok(Decision {
        bit: a?,
        rule: Rule::Numeric,
    })
}

// The answer of `is_equal` of two vectors, and the rule.
#[tactic(auto, using(crate::proofs::Scan::equal_told), unfolding(value::specs::Checks::check_operand))]
pub fn decide_vectors(
    a: Header,
    av: &[u64],
    au: &[u64],
    b: Header,
    bv: &[u64],
    bu: &[u64],
) -> Result<Decision, Refusal>
    ensures { answer result
        ≡ decide_equal (Vector a) (lent_by av.now au.now) (Vector b) (lent_by bv.now bu.now) }
{
    decide_scanned(Comparison::Equal, a, av, au, b, bv, bu)
}

// The answer of `is_equal`, and the rule.
pub fn decide_equal(
    a: Operand,
    av: &[u64],
    au: &[u64],
    b: Operand,
    bv: &[u64],
    bu: &[u64],
) -> Result<Decision, Refusal>
    ensures { answer result
        ≡ decide_equal a (lent_by av.now au.now) b (lent_by bv.now bu.now) }
{
    match (a, b) {
        (Operand::Vector(h), Operand::Vector(g)) => decide_vectors(h, av, au, g, bv, bu),
        _ => numeric(equal_reals(a, av, au, b, bv, bu)),
    }
}

// The answer of `wildcard_eq`, and the rule.
#[tactic(auto, using(crate::proofs::Scan::wildcard_told))]
pub fn decide_wildcard(
    a: Header,
    av: &[u64],
    au: &[u64],
    b: Header,
    bv: &[u64],
    bu: &[u64],
) -> Result<Decision, Refusal>
    ensures { answer result
        ≡ decide_wildcard a (lent_by av.now au.now) b (lent_by bv.now bu.now) }
{
    decide_scanned(Comparison::WildcardEqual, a, av, au, b, bv, bu)
}
