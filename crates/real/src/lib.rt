// A real as a vector.
#![tactic(auto)]

ghost use Rattle.std.specs.Prelude.{◌≡◌, ◌+◌, ◌-◌, ◌*◌, ◌/◌, ◌%◌, ◌^◌, ◌<◌, length, if◌then◌else◌};
ghost use Rattle.std.specs.Float.Ieee as Ieee;
ghost use Rattle.std.specs.Float.{binary64};
ghost use Rattle.refusal.specs.Outcome.{outcome, answer};
ghost use Rattle.words.specs.Planes.{word_count, lent_by, planes_of};
ghost use Rattle.real.specs.Round.{at_half, whole_near, scaled, rounded, real_vector, from_real};

use refusal::Refusal;
use value::{Header, MAX_WIDTH, check_output, plain_header};
use words::unchecked::{kept, ones};

// A whole number: digits * 2^shift, below zero if negative.
#[derive(Clone, Copy)]
struct Scaled {
    negative: bool,
    digits: u64,
    shift: usize,
}

const ZERO: Scaled = Scaled {
    negative: false,
    digits: 0,
    shift: 0,
};

// What a size halfway between q and q + 1 becomes.
fn at_half(q: u64) -> u64
    requires { q < 2 ^ 63 }
    ensures { result ≡ at_half q }
{
    q + 1
}

// The whole number nearest to digits / 2^cut.
fn cut_near(digits: u64, cut: u64) -> u64
    requires { (digits < 2 ^ 63) × (cut < 64) }
    ensures { result ≡ whole_near digits (2 ^ cut) }
{
    let unit = 1u64 << cut;
    let whole = digits / unit;
    let double = digits % unit * 2;
    if double < unit {
        return whole;
    }
    if unit < double {
        return whole + 1;
    }
    at_half(whole)
}

// The real of a bit pattern, rounded. Its size is digits * 2^(exponent - 1075), which is below a half where the exponent's field is below
// 1022; that field is 2047 at a NaN or an infinity.
fn rounded_bits(bits: u64) -> Scaled
    ensures { scaled result ≡ rounded (Ieee.of_bits binary64 bits) }
{
    let exponent = (bits >> 52) & 0x7ff;
    let digits = (bits & 0xf_ffff_ffff_ffff) + 0x10_0000_0000_0000;
    let negative = bits >= 0x8000_0000_0000_0000;
    if exponent < 1022 {
        return ZERO;
    }
    if exponent == 2047 {
        return ZERO;
    }
    if exponent >= 1075 {
        return Scaled {
            negative,
            digits,
            shift: (exponent - 1075) as usize,
        };
    }
    let near = cut_near(digits, 1075 - exponent);
    Scaled {
        negative,
        digits: near,
        shift: 0,
    }
}

// A real, rounded to a whole number. Infinite and NaN give 0.
fn rounded_real(f: f64) -> Scaled
    ensures { scaled result ≡ rounded f }
{
    if f != f {
        return ZERO;
    }
    rounded_bits(f.to_bits())
}

// Word k of digits * 2^shift.
fn size_word(digits: u64, shift: usize, k: usize) -> u64
    requires { k < 2 ^ 32 }
    ensures { result ≡ digits * 2 ^ shift / 2 ^ (k * 64) % 2 ^ 64 }
{
    let at = k * 64;
    if at < shift {
        let left = shift - at;
        if left < 64 {
            return digits << left;
        }
        return 0;
    }
    let right = at - shift;
    if right < 64 {
        return digits >> right;
    }
    0
}

// A word of a size, in two's complement: if the number is below zero the word's complement, and one more while all lower words are 0.
fn signed_word(negative: bool, zeros: bool, word: u64) -> u64
    ensures { result ≡ (if negative then (2 ^ 64 - 1 - word + (if zeros then 1 else 0)) % 2 ^ 64 else word) }
{
    if !negative {
        return word;
    }
    if !zeros {
        return !word;
    }
    (!word).wrapping_add(1)
}

// Writes a real as a vector of the width.
fn write_real(f: f64, width: u32, value: &mut [u64], unknown: &mut [u64])
    requires { (length value.old ≡ word_count width) × (length unknown.old ≡ word_count width) }
    ensures { lent_by value.new unknown.new ≡ planes_of (real_vector width f) }
{
    let r = rounded_real(f);
    let negative = r.negative;
    let digits = r.digits;
    let shift = r.shift;
    let mut zeros = true;
    for k in 0..value.len() {
        let word = size_word(digits, shift, k);
        let m = ones(kept(width, k));
        value[k] = signed_word(negative, zeros, word) & m;
        unknown[k] = 0;
        zeros = zeros & (word == 0);
    }
}

// A real as an unsigned vector: rounded, half away from zero, modulo 2 to the width, which is at least 1. Infinite and NaN give 0.
#[tactic(auto, unfolding(value::specs::Checks::check_output))]
pub fn from_real_wrapped(
    f: f64,
    width: u32,
    value: &mut [u64],
    unknown: &mut [u64],
) -> Result<Header, Refusal>
    ensures { outcome (answer result) (lent_by value.new unknown.new)
        ≡ from_real f width (lent_by value.old unknown.old) }
{
    if MAX_WIDTH < width {
        return Err(Refusal::TooWide);
    }
    let w = width.max(1);
    check_output(w, value, unknown)?;
    write_real(f, w, value, unknown);
    Ok(plain_header(w))
}
