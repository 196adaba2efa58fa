// Equality of two vectors that tells which rule decided, for C and Rust, as `ffi_decide` has equality.
#![tactic(auto)]

ghost use Rattle.std.specs.Prelude.{◌≡◌};
ghost use Rattle.words.specs.Planes.{lent_by};
ghost use Rattle.value.specs.declared.Operand.TheVariants.{Vector};
ghost use Rattle.decide.specs.Decide.{decide_equal};
ghost use Rattle.abi.specs.Coded.{coded_decision};

use abi::DecisionResult;
use value::Header;

// `decide::decide_vectors`
#[unsafe(no_mangle)]
pub extern "C" fn vowherunga_decide_equal_vectors(
    a: Header,
    av: &[u64],
    au: &[u64],
    b: Header,
    bv: &[u64],
    bu: &[u64],
) -> DecisionResult
    ensures { result
        ≡ coded_decision
        (decide_equal (Vector a) (lent_by av.now au.now) (Vector b) (lent_by bv.now bu.now)) }
{
    DecisionResult::from(decide::decide_vectors(a, av, au, b, bv, bu))
}
