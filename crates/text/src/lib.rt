// Readers of the lines of a text: a key, and behind it a number or the bits of a vector; or one of several lines. A reader is handed the
// text and a place in it, and gives what stands there with the place behind it, or nothing where that is not as it should be.
#![tactic(auto)]

ghost use Rattle.std.specs.Prelude.{◌≡◌, drop};
ghost use Rattle.std.specs.List.{list_all};
ghost use Rattle.text.specs.Read.{key as key_of, number_line, is_bit, bits_line};
ghost use Rattle.text.specs.Answers.{place_in, line_in};

pub mod unchecked;

// The number that a line gives and the place where the next line begins.
#[derive(Clone, Copy)]
pub struct Line {
    pub number: u32,
    pub next: usize,
}

// The place behind the bytes of `key`, where these stand.
fn skip(s: &[u8], at: usize, key: &[u8]) -> Option<usize>
    ensures { result ≡ place_in s.now (key_of key.now (drop at s.now)) }
{
    let text = &s[at.min(s.len())..];
    let rest = text.strip_prefix(key)?;
    Some(s.len() - rest.len())
}

// A line of `key` and a decimal number of at most `limit`, no leading zeros.
pub fn number_line(s: &[u8], at: usize, key: &[u8], limit: u32) -> Option<Line>
    ensures { result
        ≡ line_in s.now (number_line key.now limit (drop at s.now)) }
{
    let from = skip(s, at, key)?;
    let mut v = 0u64;
    for i in from..s.len() {
        let c = s[i];
        if (c == b'\n') & (from < i) {
            return Some(Line {
                number: v as u32,
                next: i + 1,
            });
        }
        if (c < b'0') | (b'9' < c) | ((v == 0) & (from < i)) {
            return None;
        }
        v = v * 10 + (c - b'0') as u64;
        if (limit as u64) < v {
            return None;
        }
    }
    None
}

// Whether each byte is one of 0 1 x z.
#[tactic(auto, unfolding(crate::specs::Read::is_bit))]
fn are_bits(s: &[u8]) -> bool
    ensures { result ≡ list_all is_bit s.now }
{
    s.iter().all(|c| matches!(*c, b'0' | b'1' | b'x' | b'z'))
}

// A line of `key` and exactly n of 0 1 x z, the bits of a vector, highest first; they stay in the text, behind the key.
pub fn bits_line(s: &[u8], at: usize, key: &[u8], n: u32) -> Option<usize>
    ensures { result ≡ place_in s.now (bits_line key.now n (drop at s.now)) }
{
    let from = skip(s, at, key)?;
    let end = from + n as usize;
    let bits = s.get(from..end)?;
    if !are_bits(bits) {
        return None;
    }
    skip(s, end, b"\n")
}
