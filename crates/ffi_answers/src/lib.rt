// The operators whose answer is a bit, for C and Rust: the answer is the bit's code, or a refusal. Each export asks nothing of its caller
// and does nothing but call its entry.
#![tactic(auto)]

ghost use Rattle.std.specs.Prelude.{◌≡◌};
ghost use Rattle.words.specs.Planes.{lent_by};
ghost use Rattle.value.specs.declared.Operand.TheVariants.{Vector};
ghost use Rattle.reduce_words.specs.Fold.{reduce_and, reduce_or, reduce_xor};
ghost use Rattle.truth.specs.Truth.{is_nonzero};
ghost use Rattle.reduce.specs.Reduce.{reduction};
ghost use Rattle.truth.specs.Logic.{logic_and, logic_or};
ghost use Rattle.compare_words.specs.declared.Comparison.TheVariants.{CaseEqual, CasezEqual, CasexEqual, WildcardEqual};
ghost use Rattle.compare.specs.Compare.{comparison, is_equal};
ghost use Rattle.abi.specs.Coded.{coded_bit, coded_truth, operand_of};

use abi::{BitResult, operand};
use compare_words::Comparison;
use value::Header;

// `reduce::reduce_and`
#[unsafe(no_mangle)]
pub extern "C" fn vowherunga_reduce_and(a: Header, value: &[u64], unknown: &[u64]) -> BitResult
    ensures { result ≡ coded_bit (reduction reduce_and a (lent_by value.now unknown.now)) }
{
    BitResult::from(reduce::reduce_and(a, value, unknown))
}

// `reduce::reduce_or`
#[unsafe(no_mangle)]
pub extern "C" fn vowherunga_reduce_or(a: Header, value: &[u64], unknown: &[u64]) -> BitResult
    ensures { result ≡ coded_bit (reduction reduce_or a (lent_by value.now unknown.now)) }
{
    BitResult::from(reduce::reduce_or(a, value, unknown))
}

// `reduce::reduce_xor`
#[unsafe(no_mangle)]
pub extern "C" fn vowherunga_reduce_xor(a: Header, value: &[u64], unknown: &[u64]) -> BitResult
    ensures { result ≡ coded_bit (reduction reduce_xor a (lent_by value.now unknown.now)) }
{
    BitResult::from(reduce::reduce_xor(a, value, unknown))
}

// `truth::is_nonzero`: 0 false, 1 true, 2 unknown
#[unsafe(no_mangle)]
pub extern "C" fn vowherunga_is_nonzero(
    a_is_real: bool,
    a: Header,
    a_real: f64,
    value: &[u64],
    unknown: &[u64],
) -> BitResult
    ensures { result
        ≡ coded_truth (is_nonzero (operand_of a_is_real a a_real) (lent_by value.now unknown.now)) }
{
    let o = operand(a_is_real, a, a_real);
    BitResult::from(truth::is_nonzero(o, value, unknown))
}

// `truth::logic_and`
#[unsafe(no_mangle)]
pub extern "C" fn vowherunga_logic_and(
    a_is_real: bool,
    a: Header,
    a_real: f64,
    av: &[u64],
    au: &[u64],
    b_is_real: bool,
    b: Header,
    b_real: f64,
    bv: &[u64],
    bu: &[u64],
) -> BitResult
    ensures { result
        ≡ coded_bit
        (logic_and (operand_of a_is_real a a_real) (lent_by av.now au.now)
        (operand_of b_is_real b b_real) (lent_by bv.now bu.now)) }
{
    let x = operand(a_is_real, a, a_real);
    let y = operand(b_is_real, b, b_real);
    BitResult::from(truth::logic_and(x, av, au, y, bv, bu))
}

// `truth::logic_or`
#[unsafe(no_mangle)]
pub extern "C" fn vowherunga_logic_or(
    a_is_real: bool,
    a: Header,
    a_real: f64,
    av: &[u64],
    au: &[u64],
    b_is_real: bool,
    b: Header,
    b_real: f64,
    bv: &[u64],
    bu: &[u64],
) -> BitResult
    ensures { result
        ≡ coded_bit
        (logic_or (operand_of a_is_real a a_real) (lent_by av.now au.now)
        (operand_of b_is_real b b_real) (lent_by bv.now bu.now)) }
{
    let x = operand(a_is_real, a, a_real);
    let y = operand(b_is_real, b, b_real);
    BitResult::from(truth::logic_or(x, av, au, y, bv, bu))
}

// `compare::is_equal`
#[unsafe(no_mangle)]
pub extern "C" fn vowherunga_is_equal(
    a_is_real: bool,
    a: Header,
    a_real: f64,
    av: &[u64],
    au: &[u64],
    b_is_real: bool,
    b: Header,
    b_real: f64,
    bv: &[u64],
    bu: &[u64],
) -> BitResult
    ensures { result
        ≡ coded_bit
        (is_equal (operand_of a_is_real a a_real) (lent_by av.now au.now)
        (operand_of b_is_real b b_real) (lent_by bv.now bu.now)) }
{
    let x = operand(a_is_real, a, a_real);
    let y = operand(b_is_real, b, b_real);
    BitResult::from(compare::is_equal(x, av, au, y, bv, bu))
}

// `compare::is_equal` of two vectors
#[unsafe(no_mangle)]
pub extern "C" fn vowherunga_equal_vectors(
    a: Header,
    av: &[u64],
    au: &[u64],
    b: Header,
    bv: &[u64],
    bu: &[u64],
) -> BitResult
    ensures { result
        ≡ coded_bit (is_equal (Vector a) (lent_by av.now au.now) (Vector b) (lent_by bv.now bu.now)) }
{
    BitResult::from(compare::compare_vectors(Comparison::Equal, a, av, au, b, bv, bu))
}

// `compare::case_eq`
#[unsafe(no_mangle)]
pub extern "C" fn vowherunga_case_eq(
    a: Header,
    av: &[u64],
    au: &[u64],
    b: Header,
    bv: &[u64],
    bu: &[u64],
) -> BitResult
    ensures { result
        ≡ coded_bit (comparison CaseEqual a (lent_by av.now au.now) b (lent_by bv.now bu.now)) }
{
    BitResult::from(compare::case_eq(a, av, au, b, bv, bu))
}

// `compare::casez_eq`
#[unsafe(no_mangle)]
pub extern "C" fn vowherunga_casez_eq(
    a: Header,
    av: &[u64],
    au: &[u64],
    b: Header,
    bv: &[u64],
    bu: &[u64],
) -> BitResult
    ensures { result
        ≡ coded_bit (comparison CasezEqual a (lent_by av.now au.now) b (lent_by bv.now bu.now)) }
{
    BitResult::from(compare::casez_eq(a, av, au, b, bv, bu))
}

// `compare::casex_eq`
#[unsafe(no_mangle)]
pub extern "C" fn vowherunga_casex_eq(
    a: Header,
    av: &[u64],
    au: &[u64],
    b: Header,
    bv: &[u64],
    bu: &[u64],
) -> BitResult
    ensures { result
        ≡ coded_bit (comparison CasexEqual a (lent_by av.now au.now) b (lent_by bv.now bu.now)) }
{
    BitResult::from(compare::casex_eq(a, av, au, b, bv, bu))
}

// `compare::wildcard_eq`
#[unsafe(no_mangle)]
pub extern "C" fn vowherunga_wildcard_eq(
    a: Header,
    av: &[u64],
    au: &[u64],
    b: Header,
    bv: &[u64],
    bu: &[u64],
) -> BitResult
    ensures { result
        ≡ coded_bit (comparison WildcardEqual a (lent_by av.now au.now) b (lent_by bv.now bu.now)) }
{
    BitResult::from(compare::wildcard_eq(a, av, au, b, bv, bu))
}
