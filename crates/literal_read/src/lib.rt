// Sized literals of IEEE 1800-2017, 5.7.1, read: a size of 1 to 4,096, an apostrophe, an optional s, a base and a value, such as 8'hzx.
#![tactic(auto)]

ghost use Rattle.std.specs.Prelude.{◌≡◌, true, ◌<◌, ltb, drop, IfSome};
ghost use Rattle.refusal.specs.Outcome.{outcome, answer};
ghost use Rattle.words.specs.Planes.{lent_by};
ghost use Rattle.literal_words.specs.Digits.{digit_number, each, is_value};
ghost use Rattle.literal_read.specs.Literal.{is_s, is_base, sized, literal, literal_header, read_literal};
ghost use Rattle.literal_read.specs.Answers.{size_in, follows, literal_in};

use literal_words::unchecked::fill_planes;
use literal_words::{MAX_SIZE, digit_number, is_decimal, is_unknown, radix};
use refusal::Refusal;
use value::{Header, check_output};

// The size of a literal, and the place behind its apostrophe.
#[derive(Clone, Copy)]
struct Size {
    width: u32,
    next: usize,
}

// The parts of a literal: its base as a letter, and the place where its value begins.
#[derive(Clone, Copy)]
struct Literal {
    width: u32,
    is_signed: bool,
    base: u8,
    value: usize,
}

// The size at the beginning of a text: decimal digits, of which the first is not 0, and after the first of them underscores. While the
// width is 0, no digit has been read.
fn read_size(s: &[u8]) -> Option<Size>
    ensures s_size { size_in s.now result ≡ literal s.now }
    ensures width_nonzero { IfSome result (λ z. 0 < z.width) }
{
    let mut width = 0;
    for (i, c) in s.iter().enumerate() {
        let c = *c;
        if c == b'\'' {
            if width == 0 {
                return None;
            }
            return Some(Size { width, next: i + 1 });
        }
        if (c != b'_') | (width == 0) {
            if (c < b'0') | (b'9' < c) | ((c == b'0') & (width == 0)) {
                return None;
            }
            width = width * 10 + (c - b'0') as u32;
            if MAX_SIZE < width {
                return None;
            }
        }
    }
    None
}

// s or S.
fn is_sign(c: u8) -> bool
    ensures { result ≡ is_s c }
{
    (c == b's') | (c == b'S')
}

// b, o, d or h, in either case.
fn is_base(c: u8) -> bool
    ensures { result ≡ is_base c }
{
    matches!(c, b'b' | b'B' | b'o' | b'O' | b'd' | b'D' | b'h' | b'H')
}

// Whether a character is a digit below a bound; one that is none counts as 16, which no base has.
#[tactic(auto, unfolding(literal_words::specs::Digits::digit_number))]
fn digit_below(c: u8, below: u64) -> bool
    ensures { result ≡ ltb (digit_number c) below }
{
    digit_number(c).unwrap_or(16) < below
}

// Whether a character is a digit below a bound, an x or z where these may stand, or an underscore.
fn follows(c: u8, below: u64, unknown: bool) -> bool
    ensures { result ≡ follows below unknown c }
{
    digit_below(c, below) || (unknown && is_unknown(c)) || c == b'_'
}

// Whether each character from a place on may follow so.
fn only_digits(s: &[u8], from: usize, below: u64, unknown: bool) -> bool
    ensures { result ≡ each (follows below unknown) (drop from s.now) }
{
    s.iter().skip(from).all(|c| follows(*c, below, unknown))
}

// Whether the text from a place on is a value of the base: a digit, then digits and underscores; for a decimal also one x or z, then
// underscores.
fn is_value(base: u8, s: &[u8], from: usize) -> bool
    ensures { result ≡ is_value base (drop from s.now) }
{
    if s.len() <= from {
        return false;
    }
    let c = s[from];
    let decimal = is_decimal(base);
    let unknown = is_unknown(c);
    if decimal & unknown {
        return only_digits(s, from + 1, 0, false);
    }
    let r = radix(base);
    if !unknown & !digit_below(c, r) {
        return false;
    }
    only_digits(s, from + 1, r, !decimal)
}

// The parts of the literal that the whole text is.
fn parts(s: &[u8]) -> Option<Literal>
    ensures result_value { literal_in s.now result ≡ literal s.now }
    ensures s_value { IfSome result
        (λ l. (0 < l.width) × (is_value l.base (drop l.value s.now) ≡ true)) }
{
    let size = read_size(s)?;
    let is_signed = is_sign(*s.get(size.next)?);
    let at = size.next + is_signed as usize;
    let base = *s.get(at)?;
    let value = at + 1;
    if !is_base(base) {
        return None;
    }
    if !is_value(base, s, value) {
        return None;
    }
    Some(Literal {
        width: size.width,
        is_signed,
        base,
        value,
    })
}

// The header of a literal's vector, no fill.
fn header(l: Literal) -> Header
    ensures { result ≡ sized l.width l.is_signed }
{
    Header {
        width: l.width,
        is_signed: l.is_signed,
        is_fill: false,
    }
}

// The header of a literal's vector; or 15.
pub fn literal_header(text: &[u8]) -> Result<Header, Refusal>
    ensures { answer result ≡ literal_header text.now }
{
    let l = parts(text).ok_or(Refusal::BadLiteral)?;
    Ok(header(l))
}

// Writes a literal's vector into planes of exactly its word count: 15, then 5.
pub fn read_literal(text: &[u8], ov: &mut [u64], ou: &mut [u64]) -> Result<Header, Refusal>
    ensures { outcome (answer result) (lent_by ov.new ou.new)
        ≡ read_literal text.now (lent_by ov.old ou.old) }
{
    let literal = parts(text).ok_or(Refusal::BadLiteral)?;
    check_output(literal.width, ov, ou)?;
    fill_planes(literal.base, literal.width, text, literal.value, ov, ou);
    Ok(header(literal))
}
