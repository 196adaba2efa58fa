// Equality where an operand is a real: what a vector counts as, and the comparison. Two vectors are for `compare` to compare.
ghost use Rattle.std.specs.Prelude.{◌≡◌};
ghost use Rattle.std.specs.Float.Ieee as Ieee;
ghost use Rattle.std.specs.Float.{binary64};
ghost use Rattle.words.specs.Planes.{Plane, lent_by};
ghost use Rattle.refusal.specs.Outcome.{answer};
ghost use Rattle.value.specs.Checks.{vector};
ghost use Rattle.real_equal.specs.Numeric.{vector_integer, real_of, WholePlanes, real_equality};

use bit::LogicBit;
use refusal::Refusal;
use value::{Header, Operand, check_operand};
use words::unchecked::{kept, ones};

// The float nearest to a vector's integer, in which unknown bits count as 0.
fn vector_real(h: Header, value: &[u64], unknown: &[u64]) -> f64
    requires { Plane h.width value.now × Plane h.width unknown.now }
    ensures { result
        ≡ Ieee.of_int binary64 (vector_integer (vector h (lent_by value.now unknown.now))) }
{
    let n = value[0] & !unknown[0];
    if h.is_fill {
        return std::num::nearest_u64_to_f64(n % 2 * 0xffff_ffff_ffff_ffff);
    }
    if !h.is_signed {
        return std::num::nearest_u64_to_f64(n);
    }
    let all = ones(kept(h.width, 0));
    if n <= all / 2 {
        return std::num::nearest_u64_to_f64(n);
    }
    std::num::nearest_i64_to_f64(!((all - n) as i64))
}

// The real that an operand counts as.
fn operand_real(o: Operand, value: &[u64], unknown: &[u64]) -> f64
    requires { WholePlanes o (lent_by value.now unknown.now) }
    ensures { result ≡ real_of o (lent_by value.now unknown.now) }
{
    match o {
        Operand::Vector(h) => vector_real(h, value, unknown),
        Operand::Real(x) => x,
    }
}

// Equality where an operand is a real: both count as reals. A NaN is unequal to all, and both zeros are equal.
#[tactic(auto, using(crate::proofs::Low::accepted_whole))]
pub fn equal_reals(
    a: Operand,
    av: &[u64],
    au: &[u64],
    b: Operand,
    bv: &[u64],
    bu: &[u64],
) -> Result<LogicBit, Refusal>
    ensures { answer result
        ≡ real_equality a (lent_by av.now au.now) b (lent_by bv.now bu.now) }
{
    check_operand(a, av, au)?;
    check_operand(b, bv, bu)?;
    if operand_real(a, av, au) == operand_real(b, bv, bu) {
        return Ok(LogicBit::One);
    }
    Ok(LogicBit::Zero)
}
