// Vectors of 1 to 4,096 bits written as sized literals of IEEE 1800-2017, 5.7.1: binary, one digit a bit, such as 8'b0000zx01.
#![tactic(auto)]

ghost use Rattle.std.specs.Prelude.{◌≡◌, ◌++◌, ◌+◌, ◌≤◌, ◌<◌, length};
ghost use Rattle.refusal.specs.Outcome.{outcome, answer};
ghost use Rattle.words.specs.Planes.{word_count, from_planes, lent_by};
ghost use Rattle.text.specs.Write.{decimal, bit_digits};
ghost use Rattle.lines.specs.Buffer.{buffer, put};
ghost use Rattle.literal_write.specs.Write.{base_text, check_header, check_size, literal_length, write_literal};

use lines::unchecked::{put_bits, put_bytes, put_number};
use literal_words::MAX_SIZE;
use refusal::Refusal;
use value::{Header, MAX_WIDTH, check_vector};

// How many digits a number below 10,000 has.
fn digit_count(n: u32) -> usize
    requires { n < 10000 }
    ensures { (result ≡ length (decimal n)) × (result ≤ 4) }
{
    if n < 10 {
        return 1;
    }
    if n < 100 {
        return 2;
    }
    if n < 1000 { 3 } else { 4 }
}

// Writes the apostrophe, the sign and the base.
fn put_base(text: &mut [u8], at: usize, is_signed: bool) -> usize
    requires { at + length (base_text is_signed) ≤ length text.old }
    ensures { buffer text.new result ≡ put (buffer text.old at) (base_text is_signed) }
{
    if is_signed {
        return put_bytes(text, at, b"'sb");
    }
    put_bytes(text, at, b"'b")
}

// Writes a literal: the width, the base with the sign, the bits.
fn put_literal(width: u32, is_signed: bool, value: &[u64], unknown: &[u64], text: &mut [u8])
    requires value_len { (length value.now ≡ word_count width) × (length unknown.now ≡ word_count width) }
    requires text_len { length text.old
        ≡ length (decimal width ++ (base_text is_signed ++ bit_digits (from_planes width value.now unknown.now))) }
    ensures { text.new
        ≡ decimal width ++ (base_text is_signed ++ bit_digits (from_planes width value.now unknown.now)) }
{
    let i = put_number(text, 0, width);
    let j = put_base(text, i, is_signed);
    put_bits(text, j, width, value, unknown);
}

// Whether the width is in order, and a fill has one: 1, then 4.
#[tactic(auto, unfolding(crate::specs::Write::check_header))]
fn check_header(h: Header) -> Result<(), Refusal>
    ensures { answer result ≡ check_header h }
{
    if MAX_WIDTH < h.width {
        return Err(Refusal::TooWide);
    }
    if h.is_fill && h.width == 0 {
        return Err(Refusal::EmptyFill);
    }
    Ok(())
}

// Whether a vector can be written as a literal: 15 for a fill and for a width that is not 1 to 4,096.
#[tactic(auto, unfolding(crate::specs::Write::check_size))]
fn check_size(h: Header) -> Result<(), Refusal>
    ensures { answer result ≡ check_size h }
{
    let width = h.width;
    if h.is_fill || width == 0 || MAX_SIZE < width {
        return Err(Refusal::BadLiteral);
    }
    Ok(())
}

// How long the literal of a vector is: 1, 4, then 15 as above.
#[tactic(auto, using(crate::proofs::Lengths::size_taken), unfolding(crate::specs::Write::literal_length))]
pub fn literal_length(h: Header) -> Result<usize, Refusal>
    ensures { answer result ≡ literal_length h }
{
    check_header(h)?;
    check_size(h)?;
    let width = h.width;
    let base = if h.is_signed { 3 } else { 2 };
    Ok(digit_count(width) + base + width as usize)
}

// Writes a vector as a literal into a text that is exactly as long: 1 to 4, then 15 as above, then 5.
#[tactic(auto, unfolding(crate::specs::Write::write_literal))]
pub fn write_literal(
    h: Header,
    value: &[u64],
    unknown: &[u64],
    text: &mut [u8],
) -> Result<(), Refusal>
    ensures { outcome (answer result) text.new
        ≡ write_literal h (lent_by value.now unknown.now) text.old }
{
    check_vector(h, value, unknown)?;
    let n = literal_length(h)?;
    if text.len() != n {
        return Err(Refusal::OutputLength);
    }
    put_literal(h.width, h.is_signed, value, unknown, text);
    Ok(())
}
