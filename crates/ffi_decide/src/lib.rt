// Equality that tells which rule decided, for C and Rust: the answer is the bit's code, the rule's number and its place, or a refusal. The
// export asks nothing of its caller and does nothing but call its entry. Each comparison that tells its rule has a static library of its
// own: there its scan is compiled for it alone.
#![tactic(auto)]

ghost use Rattle.std.specs.Prelude.{◌≡◌};
ghost use Rattle.words.specs.Planes.{lent_by};
ghost use Rattle.decide.specs.Decide.{decide_equal};
ghost use Rattle.abi.specs.Coded.{coded_decision, operand_of};

use abi::{DecisionResult, operand};
use value::Header;

// `decide::decide_equal`
#[unsafe(no_mangle)]
pub extern "C" fn vowherunga_decide_equal(
    a_is_real: bool,
    a: Header,
    a_real: f64,
    av: &[u64],
    au: &[u64],
    b_is_real: bool,
    b: Header,
    b_real: f64,
    bv: &[u64],
    bu: &[u64],
) -> DecisionResult
    ensures { result
        ≡ coded_decision
        (decide_equal (operand_of a_is_real a a_real) (lent_by av.now au.now)
        (operand_of b_is_real b b_real) (lent_by bv.now bu.now)) }
{
    let x = operand(a_is_real, a, a_real);
    let y = operand(b_is_real, b, b_real);
    DecisionResult::from(decide::decide_equal(x, av, au, y, bv, bu))
}
