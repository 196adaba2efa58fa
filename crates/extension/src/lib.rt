// How and, or, xor, merge and the comparisons read each of their two operands: extended to the larger width, by the top bit where both are
// signed, and a fill stretched.
#![tactic(auto)]

ghost use Rattle.std.specs.Prelude.{◌≡◌, max};
ghost use Rattle.extension.specs.Extension.{both_signed};

use bit::LogicBit;
use value::Header;

pub mod unchecked;

// An operand at any place: below the width its planes' bits, from there on the bit `beyond`.
#[derive(Clone, Copy)]
pub struct Extent {
    pub width: u32,
    pub beyond: LogicBit,
}

// The larger of two widths, at which both operands are read.
pub fn larger(a: u32, b: u32) -> u32
    ensures { result ≡ max a b }
{
    a.max(b)
}

// Whether both operands are read as signed. A fill is not: it is stretched, and is then unsigned.
pub fn both_signed(a: Header, b: Header) -> bool
    ensures { result ≡ both_signed a b }
{
    (!a.is_fill & a.is_signed) & (!b.is_fill & b.is_signed)
}
