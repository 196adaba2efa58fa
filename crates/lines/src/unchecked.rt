// The writers, each from a place of the buffer on; they give the place behind what they wrote and ask their caller for room.
ghost use Rattle.std.specs.Prelude.{◌≡◌, ◌++◌, ◌+◌, ◌≤◌, length};
ghost use Rattle.words.specs.Planes.{word_count, from_planes};
ghost use Rattle.text.specs.Write.{decimal, number_text, bit_digits, bits_text};
ghost use Rattle.lines.specs.Buffer.{buffer, put};

use crate::bit_byte;

// All of `bytes`.
pub fn put_bytes(out: &mut [u8], at: usize, bytes: &[u8]) -> usize
    requires { at + length bytes.now ≤ length out.old }
    ensures { buffer out.new result ≡ put (buffer out.old at) bytes.now }
{
    // Byte by byte: std's `copy_from_slice` has the archives for C need `memmove`.
    for j in 0..bytes.len() {
        out[at + j] = bytes[j];
    }
    at + bytes.len()
}

// A number in decimal.
pub fn put_number(out: &mut [u8], at: usize, n: u32) -> usize
    requires { at + length (decimal n) ≤ length out.old }
    ensures { buffer out.new result ≡ put (buffer out.old at) (decimal n) }
{
    if n < 10 {
        out[at] = b'0' + n as u8;
        return at + 1;
    }
    let i = put_number(out, at, n / 10);
    out[i] = b'0' + (n % 10) as u8;
    i + 1
}

// A line of `key` and a number.
pub fn put_number_line(out: &mut [u8], at: usize, key: &[u8], n: u32) -> usize
    requires { at + length (key.now ++ number_text n) ≤ length out.old }
    ensures { buffer out.new result
        ≡ put (buffer out.old at) (key.now ++ number_text n) }
{
    let i = put_bytes(out, at, key);
    let j = put_number(out, i, n);
    out[j] = b'\n';
    j + 1
}

// The bits of a vector, highest first.
pub fn put_bits(out: &mut [u8], at: usize, width: u32, value: &[u64], unknown: &[u64]) -> usize
    requires width_in_bounds { at + width ≤ length out.old }
    requires value_len { (length value.now ≡ word_count width) × (length unknown.now ≡ word_count width) }
    ensures { buffer out.new result
        ≡ put (buffer out.old at) (bit_digits (from_planes width value.now unknown.now)) }
{
    let count = width as usize;
    for k in (0..count).rev() {
        let bit = bits::unchecked::get(width, value, unknown, k);
        out[at + (count - 1 - k)] = bit_byte(bit);
    }
    at + count
}

// A line of `key` and the bits of a vector.
pub fn put_bits_line(
    out: &mut [u8],
    at: usize,
    key: &[u8],
    width: u32,
    value: &[u64],
    unknown: &[u64],
) -> usize
    requires width_in_bounds { at + length key.now + width + 1 ≤ length out.old }
    requires value_len { (length value.now ≡ word_count width) × (length unknown.now ≡ word_count width) }
    ensures { buffer out.new result
        ≡ put (buffer out.old at)
        (key.now ++ bits_text (from_planes width value.now unknown.now)) }
{
    let i = put_bytes(out, at, key);
    let end = put_bits(out, i, width, value, unknown);
    out[end] = b'\n';
    end + 1
}
