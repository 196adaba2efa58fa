// The constructors of document 01: vectors of one bit throughout and of a number, at a clamped width.
#![tactic(auto)]

ghost use Rattle.std.specs.Prelude.{◌≡◌, ◌≤◌, [], ◌∷◌, get_or};
ghost use Rattle.refusal.specs.Outcome.{outcome, answer};
ghost use Rattle.words.specs.Planes.{from_planes, lent_by};
ghost use Rattle.constructors.specs.Constructors.{clamped, constructed, new_vector, zero_vector, from_u64};

use bit::LogicBit;
use refusal::Refusal;
use value::{Header, MAX_WIDTH, check_output, plain_header};

// A width above the widest vector's becomes that.
fn cap_width(width: u32) -> u32
    ensures { result ≡ clamped width }
{
    width.min(MAX_WIDTH)
}

// A vector at a clamped width: its low bits are the `count` low bits of a number, and every further bit is `beyond`.
#[tactic(auto, unfolding(value::specs::Checks::check_output))]
fn construct(
    width: u32,
    value: &mut [u64],
    unknown: &mut [u64],
    val: u64,
    count: u32,
    beyond: LogicBit,
) -> Result<Header, Refusal>
    requires { count ≤ 64 }
    ensures { outcome (answer result) (lent_by value.new unknown.new)
        ≡ constructed width (λ i. get_or (from_planes count (val ∷ []) (0 ∷ [])) i beyond)
        (lent_by value.old unknown.old) }
{
    let w = cap_width(width);
    check_output(w, value, unknown)?;
    let low = [val];
    let none = [0u64];
    words::unchecked::extend_into(w, value, unknown, &low, &none, count, beyond);
    Ok(plain_header(w))
}

// All x, at a clamped width.
#[tactic(auto, unfolding(words::specs::Vector::tabulate))]
pub fn new(width: u32, value: &mut [u64], unknown: &mut [u64]) -> Result<Header, Refusal>
    ensures { outcome (answer result) (lent_by value.new unknown.new)
        ≡ new_vector width (lent_by value.old unknown.old) }
{
    construct(width, value, unknown, 0, 0, LogicBit::X)
}

// All 0, at a clamped width.
#[tactic(auto, unfolding(words::specs::Vector::tabulate))]
pub fn zero(width: u32, value: &mut [u64], unknown: &mut [u64]) -> Result<Header, Refusal>
    ensures { outcome (answer result) (lent_by value.new unknown.new)
        ≡ zero_vector width (lent_by value.old unknown.old) }
{
    construct(width, value, unknown, 0, 0, LogicBit::Zero)
}

// The bits of a number, at a clamped width.
#[tactic(auto, using(crate::proofs::Constructors::number_given))]
pub fn from_u64(
    val: u64,
    width: u32,
    value: &mut [u64],
    unknown: &mut [u64],
) -> Result<Header, Refusal>
    ensures { outcome (answer result) (lent_by value.new unknown.new)
        ≡ from_u64 val width (lent_by value.old unknown.old) }
{
    construct(width, value, unknown, val, 64, LogicBit::Zero)
}
