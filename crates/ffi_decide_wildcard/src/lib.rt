// Wildcard equality that tells which rule decided, for C and Rust, as `ffi_decide` has equality.
#![tactic(auto)]

ghost use Rattle.std.specs.Prelude.{◌≡◌};
ghost use Rattle.words.specs.Planes.{lent_by};
ghost use Rattle.decide.specs.Decide.{decide_wildcard};
ghost use Rattle.abi.specs.Coded.{coded_decision};

use abi::DecisionResult;
use value::Header;

// `decide::decide_wildcard`
#[unsafe(no_mangle)]
pub extern "C" fn vowherunga_decide_wildcard(
    a: Header,
    av: &[u64],
    au: &[u64],
    b: Header,
    bv: &[u64],
    bu: &[u64],
) -> DecisionResult
    ensures { result
        ≡ coded_decision (decide_wildcard a (lent_by av.now au.now) b (lent_by bv.now bu.now)) }
{
    DecisionResult::from(decide::decide_wildcard(a, av, au, b, bv, bu))
}
