// The work behind reading bits out of planes and putting them in. These ask their caller for planes of the right length.
ghost use Rattle.std.specs.Prelude.{◌≡◌, ◌+◌, ◌*◌, ◌≤◌, ◌<◌, length};
ghost use Rattle.words.specs.Vector.{at};
ghost use Rattle.words.specs.Planes.{word_count, from_planes, lent_by, planes_of, Plane};
ghost use Rattle.bits.specs.Bits.{spliced, extracted, spliced_plane};

use bit::LogicBit;
use words::Word;
use words::unchecked::{blend, least, ones, word_from};

// Bit i; 0 at or above the width.
pub fn get(width: u32, value: &[u64], unknown: &[u64], i: usize) -> LogicBit
    requires { (length value.now ≡ word_count width) × (length unknown.now ≡ word_count width) }
    ensures { result ≡ at (from_planes width value.now unknown.now) i }
{
    let w = width as usize;
    if w <= i {
        return LogicBit::Zero;
    }
    let k = i / 64;
    let j = i % 64;
    let v = (value[k] >> j) % 2;
    let u = (unknown[k] >> j) % 2;
    if u == 0 {
        if v == 0 {
            LogicBit::Zero
        } else {
            LogicBit::One
        }
    } else {
        if v == 0 { LogicBit::X } else { LogicBit::Z }
    }
}

// The n bits from `pos` on, at most 64; 0 beyond the width.
pub fn extract64(width: u32, value: &[u64], unknown: &[u64], pos: usize, n: usize) -> Word
    requires plane { Plane width value.now }
    requires plane_2 { Plane width unknown.now }
    ensures { result ≡ extracted (from_planes width value.now unknown.now) pos n }
{
    let count = least(n, 64);
    let m = ones(count);
    let v = word_from(value, pos);
    let u = word_from(unknown, pos);
    Word {
        value: v & m,
        unknown: u & m,
    }
}

// Puts the n low bits of a word in from `pos` on.
fn splice_plane(plane: &mut [u64], pos: usize, bits: u64, n: usize)
    requires n_bound { n ≤ 64 }
    requires pos_in_bounds { pos < length plane.old * 64 }
    requires n_in_bounds { pos + n ≤ length plane.old * 64 }
    ensures { plane.new ≡ spliced_plane plane.old pos n bits }
{
    let k = pos / 64;
    let j = pos % 64;
    let m = ones(n);
    plane[k] = blend(plane[k], m << j, bits << j);
    if j + n <= 64 {
        return;
    }
    let next = k + 1;
    let back = 64 - j;
    plane[next] = blend(plane[next], m >> back, bits >> back);
}

// Puts the lowest bits of a word in from `pos` on: the least of n, 64 and the width minus `pos` of them.
pub fn splice64(
    width: u32,
    value: &mut [u64],
    unknown: &mut [u64],
    pos: usize,
    bits: Word,
    n: usize,
)
    requires plane { Plane width value.old }
    requires plane_2 { Plane width unknown.old }
    ensures { lent_by value.new unknown.new
        ≡ planes_of (spliced (from_planes width value.old unknown.old) pos n bits) }
{
    let w = width as usize;
    if w <= pos {
        return;
    }
    let room = least(64, w - pos);
    let count = least(n, room);
    splice_plane(value, pos, bits.value, count);
    splice_plane(unknown, pos, bits.unknown, count);
}
