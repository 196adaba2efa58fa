// How an operand is read beside another. These ask their caller for planes of the right length.
ghost use Rattle.std.specs.Prelude.{◌≡◌, length};
ghost use Rattle.words.specs.Planes.{word_count, lent_by};
ghost use Rattle.value.specs.Checks.{vector};
ghost use Rattle.extension.specs.Extension.{extent_of};

use crate::Extent;
use bit::LogicBit;
use value::Header;

// How the operand a is read beside one with the header b.
#[tactic(auto, using(crate::proofs::Extension::top_read, crate::proofs::Extension::no_top))]
pub fn extent(a: Header, value: &[u64], unknown: &[u64], b: Header) -> Extent
    requires { (length value.now ≡ word_count a.width) × (length unknown.now ≡ word_count a.width) }
    ensures { result ≡ extent_of (vector a (lent_by value.now unknown.now)) b }
{
    let width = a.width;
    let by_top = crate::both_signed(a, b);
    if a.is_fill {
        Extent {
            width: 0,
            beyond: bits::unchecked::get(width, value, unknown, 0),
        }
    } else if by_top & (width != 0) {
        Extent {
            width: width,
            beyond: bits::unchecked::get(width, value, unknown, width as usize - 1),
        }
    } else {
        Extent {
            width: width,
            beyond: LogicBit::Zero,
        }
    }
}
