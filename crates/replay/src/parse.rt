// The parts of a line, numbers, reals and vectors as text.
ghost use Rattle.std.specs.Prelude.{◌≡◌, ◌≤◌, cond, length, slice_index};
ghost use Rattle.words.specs.Vector.{at};
ghost use Rattle.words.specs.Planes.{word_at};
ghost use Rattle.replay.specs.Text.{has as has_byte, part_of, bare_of, decimal_of};
ghost use Rattle.replay.specs.Calls.{name_from, call_names, fits_in};
ghost use Rattle.replay.specs.Fields.{bit_characters, bits_of, sized as sized_by, sizes_of, real_told, loaded};

use text::unchecked::read_word;
use value::Header;
use words::Word;

// Whether such a byte stands in a text.
pub(crate) fn has(s: &[u8], byte: u8) -> bool
    ensures { result ≡ has_byte byte s.now }
{
    s.contains(&byte)
}

// Part k, from 0, if that byte stands between parts; empty where there are fewer.
pub(crate) fn part(s: &[u8], k: usize, byte: u8) -> &[u8]
    ensures { result.now ≡ part_of byte k s.now }
{
    s.split(|c| *c == byte).nth(k).unwrap_or(&[])
}

// The number of a name among n names that have a space between them.
#[tactic(auto, using(crate::proofs::Names::name_here, crate::proofs::Names::name_behind, crate::proofs::Names::no_name))]
fn number_in(names: &[u8], n: usize, name: &[u8]) -> Option<usize>
    ensures { result ≡ name_from 0 n names.now name.now }
{
    for k in 0..n {
        if part(names, k, b' ') == name {
            return Some(k);
        }
    }
    None
}

// The number of a call: the place of its name here.
pub(crate) fn number_of(name: &[u8]) -> Option<usize>
    ensures { result ≡ name_from 0 29 call_names name.now }
{
    number_in(
        b"get extract64 set splice64 splice_bits64 mask_top new zero from_u64 from_real_wrapped \
        reduce_and reduce_or reduce_xor is_nonzero logic_and logic_or is_equal case_eq casez_eq casex_eq wildcard_eq \
        bitwise_and bitwise_or bitwise_xor merge_unknown bitwise_not decide_equal decide_wildcard chosen_arm",
        29,
        name,
    )
}

// A decimal number, modulo 2^64.
pub(crate) fn decimal(s: &[u8]) -> u64
    ensures { result ≡ decimal_of s.now }
{
    let mut n: u64 = 0;
    for c in s {
        n = n.wrapping_mul(10).wrapping_add(u64::from(*c % 16));
    }
    n
}

// The lowest bits as a word of both planes.
pub(crate) fn word(bits: &[u8]) -> Word
    ensures { result ≡ word_at (at (bits_of bits.now)) 0 }
{
    let n = bits.len().min(64);
    read_word(bits, bits.len() - n, n)
}

// The word of one of the planes.
fn word_of(w: Word, is_unknown: bool) -> u64
    ensures { result ≡ cond is_unknown w.unknown w.value }
{
    if is_unknown { w.unknown } else { w.value }
}

// Fills the first n words of a plane with the bits' unknown digits or their value digits; above the bits they are 0.
pub(crate) fn load(bits: &[u8], is_unknown: bool, plane: &mut [u64], n: usize)
    requires { n ≤ length plane.old }
    ensures { plane.new
        ≡ loaded is_unknown (bits_of bits.now) n plane.old }
{
    let mut left = bits.len();
    for k in 0..n {
        let m = left.min(64);
        left -= m;
        let w = read_word(bits, left, m);
        plane[k] = word_of(w, is_unknown);
    }
}

// What follows the letter of a vector's marks or of a real, the minus of a real or the mark of a refusal.
pub(crate) fn bare(s: &[u8]) -> &[u8]
    ensures { result.now ≡ bare_of s.now }
{
    match s.split_first() {
        Some((mark, rest)) if has(b"usfgr-!", *mark) => rest,
        _ => s,
    }
}

// A real: `r`, maybe a minus, and a quotient of two numbers, as r-5/2.
#[tactic(auto, unfolding(crate::specs::Fields::real_told))]
pub(crate) fn real(s: &[u8]) -> f64
    ensures { result ≡ real_told s.now }
{
    let n = std::num::nearest_u64_to_f64(decimal(part(bare(bare(s)), 0, b'/')));
    let d = std::num::nearest_u64_to_f64(decimal(part(s, 1, b'/')));
    if has(s, b'-') { -n / d } else { n / d }
}

// A vector's header and how many words each plane has.
#[derive(Clone, Copy)]
pub(crate) struct Sizes {
    pub(crate) header: Header,
    pub(crate) value: usize,
    pub(crate) unknown: usize,
}

// The first byte of a text, or 0.
fn letter_of(s: &[u8]) -> u8
    ensures { result ≡ slice_index s.now 0 }
{
    s.first().copied().unwrap_or(0)
}

// A header by the letter in front, and how many words each plane has.
fn sized(s: &[u8], width: u64, value: usize, unknown: usize) -> Sizes
    ensures { result ≡ sized_by s.now width value unknown }
{
    let letter = letter_of(s);
    Sizes {
        header: Header {
            width: (width % 0x1_0000_0000) as u32,
            is_signed: (letter == b's') | (letter == b'g'),
            is_fill: (letter == b'f') | (letter == b'g'),
        },
        value,
        unknown,
    }
}

// A vector without a colon is its bits alone; a real has no planes.
#[tactic(auto, unfolding(crate::specs::Fields::sizes_of))]
pub(crate) fn sizes_of(s: &[u8]) -> Sizes
    ensures { result ≡ sizes_of s.now }
{
    if has(s, b'r') {
        return sized(s, 0, 0, 0);
    }
    let vector = bare(s);
    if has(vector, b':') {
        let width = decimal(part(vector, 0, b':'));
        let value = decimal(part(vector, 1, b':')) as usize;
        let unknown = decimal(part(vector, 2, b':')) as usize;
        return sized(s, width, value, unknown);
    }
    let n = words::word_count((vector.len() % 0x1_0000_0000) as u32);
    sized(s, vector.len() as u64, n, n)
}

// The characters of a vector's bits.
#[tactic(auto, unfolding(crate::specs::Fields::bit_characters))]
pub(crate) fn bits_of(s: &[u8]) -> &[u8]
    ensures { result.now ≡ bit_characters s.now }
{
    let vector = bare(s);
    if has(vector, b':') {
        part(vector, 3, b':')
    } else {
        vector
    }
}

// Whether planes of n words have as many as field k of a line asks for.
pub(crate) fn fits(line: &[u8], k: usize, n: usize) -> bool
    ensures { result ≡ fits_in k n line.now }
{
    let e = sizes_of(part(line, k, b' '));
    e.value <= n && e.unknown <= n
}
