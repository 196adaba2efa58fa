// Two vectors joined place by place, and not of one, into lent planes, and the header of two vectors joined.
#![tactic(auto)]

ghost use Rattle.std.specs.Prelude.{◌≡◌};
ghost use Rattle.bitwise_words.specs.Joined.{result_header};

use extension::{both_signed, larger};
use lanes::Bitwise;
use value::{Header, plain_header};

pub mod unchecked;

// The header of the operator's result.
pub fn result_header(op: Bitwise, a: Header, b: Header) -> Header
    ensures { result ≡ result_header op a b }
{
    let width = larger(a.width, b.width);
    match op {
        Bitwise::And | Bitwise::Or | Bitwise::Xor => plain_header(width),
        Bitwise::Merge => Header {
            width: width,
            is_signed: both_signed(a, b),
            is_fill: false,
        },
    }
}
