// The planes of a literal's value. Several digits are read at once into a number, and a pass over a plane multiplies by their power and
// adds that number. An x or z that is extended is a plane of ones to begin with, which stays so above the digits. These ask their caller
// for a value of the base and for planes of the right length.
ghost use Rattle.std.specs.Prelude.{◌≡◌, ◌+◌, ◌*◌, ◌^◌, ◌≤◌, ◌<◌, true, length, drop};
ghost use Rattle.words.specs.Planes.{word_count, lent_by, planes_of};
ghost use Rattle.literal_words.specs.Digits.{is_value, value_bits, digits, number_by};
ghost use Rattle.literal_words.specs.Passes.{has_number, value_number, unknown_number, readable, ChunkOf, Taken};

use crate::{digit_number, is_unknown, is_x, is_z, leading, radix};
use words::unchecked::{extend_into, mask_plane};

// Digits read at once: what they add to either plane, the power of the base that has as many, and the place behind them.
#[derive(Clone, Copy)]
struct Chunk {
    value: u64,
    unknown: u64,
    power: u64,
    next: usize,
}

// What a digit, an x or a z adds to the value plane.
#[tactic(auto, unfolding(crate::specs::Passes::value_number, crate::specs::Digits::digit_number))]
fn value_number(r: u64, c: u8) -> u64
    requires { 0 < r }
    ensures { has_number c ≡ true → result ≡ value_number r c }
{
    if is_z(c) {
        return r - 1;
    }
    if is_x(c) {
        0
    } else {
        digit_number(c).unwrap_or(0)
    }
}

// What a character adds to the unknown plane.
#[tactic(auto, unfolding(crate::specs::Passes::unknown_number))]
fn unknown_number(r: u64, c: u8) -> u64
    requires { 0 < r }
    ensures { result ≡ unknown_number r c }
{
    if is_unknown(c) { r - 1 } else { 0 }
}

// The digits from a place on, until the power of the base passes 2^28 or the text ends.
fn read_chunk(s: &[u8], from: usize, r: u64) -> Chunk
    requires le_r { (2 ≤ r) × (r ≤ 16) × (from < length s.now) }
    requires s_value { readable r (drop from s.now) ≡ true }
    ensures { ChunkOf r s.now from result }
{
    let mut value = 0;
    let mut unknown = 0;
    let mut power = 1;
    let mut i = from;
    // A `while`: the power ends it too, and the place where it ends is a result.
    while (i < s.len()) & (power <= 0x1000_0000) {
        let c = s[i];
        i += 1;
        if c != b'_' {
            value = value * r + value_number(r, c);
            unknown = unknown * r + unknown_number(r, c);
            power = power * r;
        }
    }
    Chunk {
        value,
        unknown,
        power,
        next: i,
    }
}

// The number that a plane holds, times a factor and plus another number, as far as the plane has words. A word is taken in halves of 32
// bits, so that each product and what is carried fit a word.
fn times_plus(plane: &mut [u64], factor: u64, add: u64)
    requires { (factor ≤ 2 ^ 32) × (add < 2 ^ 32) }
    ensures { Taken (λ n. n * factor + add) plane.old plane.new }
{
    let mut carry = add;
    for x in plane.iter_mut() {
        let low = *x % 0x1_0000_0000 * factor + carry;
        let high = *x / 0x1_0000_0000 * factor + low / 0x1_0000_0000;
        *x = high % 0x1_0000_0000 * 0x1_0000_0000 + low % 0x1_0000_0000;
        carry = high / 0x1_0000_0000;
    }
}

// Takes the digits of a value into both planes.
fn take_digits(s: &[u8], from: usize, r: u64, value: &mut [u64], unknown: &mut [u64])
    requires le_r { (2 ≤ r) × (r ≤ 16) }
    requires s_value { readable r (drop from s.now) ≡ true }
    ensures taken { Taken
        (λ n. number_by r (value_number r) n (digits (drop from s.now)))
        value.old
        value.new }
    ensures taken_2 { Taken
        (λ n. number_by r (unknown_number r) n (digits (drop from s.now)))
        unknown.old
        unknown.new }
{
    let mut i = from;
    // A `while`: each turn goes on by a whole chunk.
    while i < s.len() {
        let c = read_chunk(s, i, r);
        let power = c.power;
        times_plus(value, power, c.value);
        times_plus(unknown, power, c.unknown);
        i = c.next;
    }
}

// Writes the planes of the vector that the value from a place on stands for.
pub fn fill_planes(
    base: u8,
    width: u32,
    s: &[u8],
    from: usize,
    value: &mut [u64],
    unknown: &mut [u64],
)
    requires s_value { is_value base (drop from s.now) ≡ true }
    requires width_nonzero { (0 < width) × (length value.old ≡ word_count width) × (length unknown.old ≡ word_count width) }
    ensures { lent_by value.new unknown.new
        ≡ planes_of (value_bits base width (drop from s.now)) }
{
    let r = radix(base);
    let beyond = leading(s[from]);
    let none = [0u64];
    extend_into(width, value, unknown, &none, &none, 0, beyond);
    take_digits(s, from, r, value, unknown);
    mask_plane(value, width);
    mask_plane(unknown, width);
}
