// The words of planes: copies, masks, the word of an operand that continues beyond its width, a word that starts at any bit. These ask
// their caller for planes of the right length.
ghost use Rattle.std.specs.Prelude.{◌≡◌, ◌+◌, ◌-◌, ◌*◌, ◌^◌, ◌≤◌, min, cond, eqb, ◌++◌, length, get_or, take, drop};
ghost use Rattle.words.specs.Vector.{tabulate, bit_at, pack};
ghost use Rattle.words.specs.Planes.{word_count, plane_bit, plane_digits, from_planes, clear_above, masked, packed, word_at};
ghost use Rattle.words.specs.Planes.{lent_by, planes_of};

use crate::Word;
use bit::LogicBit;

// How many bits of word k lie below `width`.
pub fn kept(width: u32, k: usize) -> usize
    ensures { result ≡ min 64 (width - k * 64) }
{
    let w = width as usize;
    let full = w / 64;
    if k < full {
        64
    } else {
        if k == full { w % 64 } else { 0 }
    }
}

// The n low bits set.
pub fn ones(n: usize) -> u64
    requires { n ≤ 64 }
    ensures { result ≡ 2 ^ n - 1 }
{
    if n == 0 {
        0
    } else {
        0xffff_ffff_ffff_ffff >> (64 - n)
    }
}

// The bits of `new` where the mask has a one, those of `old` elsewhere.
pub fn blend(old: u64, mask: u64, new: u64) -> u64
    ensures { result ≡ pack 64 (λ j. cond (eqb (bit_at mask j) 1) (bit_at new j) (bit_at old j)) }
{
    (old & !mask) | (new & mask)
}

// Every place holds the bit b.
#[tactic(auto, unfolding(crate::specs::Vector::pack))]
pub fn filled(b: LogicBit) -> Word
    ensures { result ≡ packed (λ j. b) }
{
    let all = 0xffff_ffff_ffff_ffff;
    match b {
        LogicBit::Zero => Word {
            value: 0,
            unknown: 0,
        },
        LogicBit::One => Word {
            value: all,
            unknown: 0,
        },
        LogicBit::X => Word {
            value: 0,
            unknown: all,
        },
        LogicBit::Z => Word {
            value: all,
            unknown: all,
        },
    }
}

// Word k of a plane; the bits at or above `width` are those of `fill`.
fn extended_word(plane: &[u64], width: u32, k: usize, fill: u64) -> u64
    requires { word_count width ≤ length plane.now }
    ensures { result
        ≡ pack 64 (λ j. get_or (plane_digits width plane.now) (k * 64 + j) (bit_at fill j)) }
{
    let n = kept(width, k);
    if n == 0 {
        fill
    } else {
        blend(fill, ones(n), plane[k])
    }
}

// Word k of an operand whose bits below `width` are those of the planes, and every further bit is `beyond`.
pub fn operand_word(value: &[u64], unknown: &[u64], width: u32, k: usize, beyond: LogicBit) -> Word
    requires { (word_count width ≤ length value.now) × (word_count width ≤ length unknown.now) }
    ensures { result
        ≡ word_at (λ i. get_or (from_planes width value.now unknown.now) i beyond) k }
{
    let fill = filled(beyond);
    let fv = fill.value;
    let fu = fill.unknown;
    let v = extended_word(value, width, k, fv);
    let u = extended_word(unknown, width, k, fu);
    Word {
        value: v,
        unknown: u,
    }
}

// Writes a vector of the width: its bits below `from_width` are those of the planes lent, and every further bit is `beyond`.
pub fn extend_into(
    width: u32,
    value: &mut [u64],
    unknown: &mut [u64],
    from_value: &[u64],
    from_unknown: &[u64],
    from_width: u32,
    beyond: LogicBit,
)
    requires value_len { (length value.old ≡ word_count width) × (length unknown.old ≡ word_count width) }
    requires from_width_in_bounds { (word_count from_width ≤ length from_value.now)
        × (word_count from_width ≤ length from_unknown.now) }
    ensures { lent_by value.new unknown.new
        ≡ planes_of
        (tabulate width
        (λ i. get_or (from_planes from_width from_value.now from_unknown.now) i beyond)) }
{
    for k in 0..value.len() {
        let x = operand_word(from_value, from_unknown, from_width, k, beyond);
        let n = kept(width, k);
        let m = ones(n);
        value[k] = x.value & m;
        unknown[k] = x.unknown & m;
    }
}

// Whether no bit is set at or above `width`.
pub fn is_clear(plane: &[u64], width: u32) -> bool
    requires { length plane.now ≡ word_count width }
    ensures { result ≡ clear_above width plane.now }
{
    let last = plane.len() - 1;
    let n = width as usize - last * 64;
    let m = ones(n);
    (plane[last] & !m) == 0
}

// Clears the bits at or above `width`; at width 0 none.
pub fn mask_plane(plane: &mut [u64], width: u32)
    requires { length plane.old ≡ word_count width }
    ensures { plane.new ≡ masked width plane.old }
{
    if width == 0 {
        return;
    }
    let last = plane.len() - 1;
    let n = width as usize - last * 64;
    let m = ones(n);
    plane[last] = plane[last] & m;
}

// Copies the first n words of a plane to the front of another, whose further words stay.
pub fn copy_front(plane: &mut [u64], from: &[u64], n: usize)
    requires { (n ≤ length from.now) × (n ≤ length plane.old) }
    ensures { plane.new ≡ take n from.now ++ drop n plane.old }
{
    // Word by word: std's `copy_from_slice` has the archives for C need `memmove`.
    for i in 0..n {
        plane[i] = from[i];
    }
}

// The word that starts at bit `pos` of a plane; 0 beyond its end.
pub fn word_from(plane: &[u64], pos: usize) -> u64
    ensures { result ≡ pack 64 (λ j. plane_bit plane.now (pos + j)) }
{
    let k = pos / 64;
    let j = pos % 64;
    if plane.len() <= k {
        return 0;
    }
    let low = plane[k] >> j;
    if j == 0 {
        return low;
    }
    let next = k + 1;
    if plane.len() <= next {
        return low;
    }
    low | (plane[next] << (64 - j))
}

pub fn least(a: usize, b: usize) -> usize
    ensures { result ≡ min a b }
{
    if a < b { a } else { b }
}
