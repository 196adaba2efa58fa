// The work behind insert. These ask their caller for an accepted vector.
ghost use Rattle.std.specs.Prelude.{◌≡◌, not};
ghost use Rattle.words.specs.Planes.{from_planes, lent_by, planes_of, Plane};
ghost use Rattle.bits.specs.Bits.{spliced};
ghost use Rattle.insert.specs.Insert.{stands};

use words::Word;
use words::unchecked::{least, ones};

// Puts bits in, as `splice64` of planes does, and tells whether one changed.
#[tactic(auto, using(crate::proofs::Standing::told))]
pub fn splice_bits64(
    width: u32,
    value: &mut [u64],
    unknown: &mut [u64],
    pos: usize,
    bits: Word,
    n: usize,
) -> bool
    requires plane { Plane width value.old }
    requires plane_2 { Plane width unknown.old }
    ensures value { result
        ≡ not (stands (from_planes width value.old unknown.old) pos n bits) }
    ensures unknown_value { lent_by value.new unknown.new
        ≡ planes_of (spliced (from_planes width value.old unknown.old) pos n bits) }
{
    let w = width as usize;
    if w <= pos {
        return false;
    }
    let room = least(64, w - pos);
    let count = least(n, room);
    let old = bits::unchecked::extract64(width, value, unknown, pos, count);
    let m = ones(count);
    let asked = Word {
        value: bits.value & m,
        unknown: bits.unknown & m,
    };
    if old == asked {
        return false;
    }
    bits::unchecked::splice64(width, value, unknown, pos, bits, n);
    true
}
