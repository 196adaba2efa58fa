// A vector's header, the operand of equality and truth, and the checks of planes and operands.
#![tactic(auto)]

ghost use Rattle.std.specs.Prelude.{◌≡◌};
ghost use Rattle.refusal.specs.Outcome.{answer};
ghost use Rattle.words.specs.Planes.{lent_by};
ghost use Rattle.value.specs.Checks.{plain, check_lengths, check_planes, check_vector, check_pair, check_operand, check_output};

use refusal::Refusal;

// The widest vector.
pub const MAX_WIDTH: u32 = 1_048_576;

#[repr(C)]
#[derive(Clone, Copy, PartialEq, Eq)]
pub struct Header {
    pub width: u32,
    pub is_signed: bool,
    pub is_fill: bool,
}

// A vector's header, or a real; the planes come beside it, empty for a real.
#[derive(Clone, Copy)]
pub enum Operand {
    Vector(Header),
    Real(f64),
}

// Whether the width and the planes' lengths are in order: 1, then 2.
#[tactic(auto, unfolding(crate::specs::Checks::check_lengths))]
pub fn check_lengths(width: u32, value: &[u64], unknown: &[u64]) -> Result<(), Refusal>
    ensures { answer result ≡ check_lengths width (lent_by value.now unknown.now) }
{
    if MAX_WIDTH < width {
        return Err(Refusal::TooWide);
    }
    let n = words::word_count(width);
    if value.len() != n {
        return Err(Refusal::PlaneLength);
    }
    if unknown.len() != n {
        return Err(Refusal::PlaneLength);
    }
    Ok(())
}

// Whether the planes may be those of a vector of that width: 1, then 2, then 3.
#[tactic(auto, using(crate::proofs::Checks::lengths_accepted), unfolding(crate::specs::Checks::check_planes))]
pub fn check_planes(width: u32, value: &[u64], unknown: &[u64]) -> Result<(), Refusal>
    ensures { answer result ≡ check_planes width (lent_by value.now unknown.now) }
{
    check_lengths(width, value, unknown)?;
    if !words::unchecked::is_clear(value, width) {
        return Err(Refusal::BitAboveWidth);
    }
    if !words::unchecked::is_clear(unknown, width) {
        return Err(Refusal::BitAboveWidth);
    }
    Ok(())
}

// Whether a vector may be an operand: 1, 2, 3, then 4.
#[tactic(auto, unfolding(crate::specs::Checks::check_vector))]
pub fn check_vector(h: Header, value: &[u64], unknown: &[u64]) -> Result<(), Refusal>
    ensures { answer result ≡ check_vector h (lent_by value.now unknown.now) }
{
    check_planes(h.width, value, unknown)?;
    if h.is_fill && h.width == 0 {
        return Err(Refusal::EmptyFill);
    }
    Ok(())
}

// Whether two vectors may be operands: 1 to 4 for the left one, then for the right one.
pub fn check_pair(
    a: Header,
    av: &[u64],
    au: &[u64],
    b: Header,
    bv: &[u64],
    bu: &[u64],
) -> Result<(), Refusal>
    ensures { answer result
        ≡ check_pair a (lent_by av.now au.now) b (lent_by bv.now bu.now) }
{
    check_vector(a, av, au)?;
    check_vector(b, bv, bu)
}

// Whether an operand is in order: a vector by 1 to 4, a real by 2 if a plane is not empty.
#[tactic(auto, unfolding(crate::specs::Checks::check_operand))]
pub fn check_operand(o: Operand, value: &[u64], unknown: &[u64]) -> Result<(), Refusal>
    ensures { answer result ≡ check_operand o (lent_by value.now unknown.now) }
{
    match o {
        Operand::Vector(h) => check_vector(h, value, unknown),
        Operand::Real(_) => {
            if value.len() != 0 {
                return Err(Refusal::PlaneLength);
            }
            if unknown.len() != 0 {
                return Err(Refusal::PlaneLength);
            }
            Ok(())
        }
    }
}

// Whether output planes are exactly the words of a result of that width, or 5.
#[tactic(auto, unfolding(crate::specs::Checks::check_output))]
pub fn check_output(width: u32, value: &[u64], unknown: &[u64]) -> Result<(), Refusal>
    ensures { answer result ≡ check_output width (lent_by value.now unknown.now) }
{
    let count = words::word_count(width);
    if value.len() != count {
        return Err(Refusal::OutputLength);
    }
    if unknown.len() != count {
        return Err(Refusal::OutputLength);
    }
    Ok(())
}

// The header of an unsigned vector that is no fill.
pub fn plain_header(width: u32) -> Header
    ensures { result ≡ plain width }
{
    Header {
        width: width,
        is_signed: false,
        is_fill: false,
    }
}
