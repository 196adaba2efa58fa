// One of several lines; and planes filled word by word from characters, highest bit first, of which one that is none of 0 1 x z is taken
// as 0. These ask their caller for lines that can be counted, for a text that has the characters, and for planes of the right length.
ghost use Rattle.std.specs.Prelude.{◌≡◌, ◌-◌, ◌≤◌, ◌<◌, length, drop};
ghost use Rattle.text.specs.Read.{one_of, lines_in};
ghost use Rattle.words.specs.Vector.{at};
ghost use Rattle.words.specs.Planes.{word_count, packed, lent_by, planes_of};
ghost use Rattle.text.specs.Answers.{line_in, bits_in};

use crate::{Line, skip};
use words::Word;

// The number, from 0, of the line of `lines` that stands there; each of them ends with LF, and the first that fits is taken.
pub fn one_of(s: &[u8], at: usize, lines: &[u8]) -> Option<Line>
    requires { length lines.now < 4294967296 }
    ensures { result
        ≡ line_in s.now (one_of (lines_in lines.now) 0 (drop at s.now)) }
{
    let mut number = 0;
    let mut start = 0;
    for (j, c) in lines.iter().enumerate() {
        if *c == b'\n' {
            if let Some(next) = skip(s, at, &lines[start..=j]) {
                return Some(Line { number, next });
            }
            number += 1;
            start = j + 1;
        }
    }
    None
}

// The word whose lowest bits are the n characters from a place on: 1 and z store a 1 in the value plane, x and z in the unknown plane.
pub fn read_word(s: &[u8], from: usize, n: usize) -> Word
    requires { (n ≤ 64) × (n ≤ length s.now - from) }
    ensures { result ≡ packed (at (bits_in s.now from n)) }
{
    let mut value: u64 = 0;
    let mut unknown: u64 = 0;
    for k in from..from + n {
        let c = s[k];
        value = value * 2 + ((c == b'1') | (c == b'z')) as u64;
        unknown = unknown * 2 + ((c == b'x') | (c == b'z')) as u64;
    }
    Word { value, unknown }
}

// Writes the planes of the vector whose bits are the `width` characters from a place on.
pub fn fill_planes(s: &[u8], place: usize, width: u32, value: &mut [u64], unknown: &mut [u64])
    requires width_in_bounds { width ≤ length s.now - place }
    requires value_len { (length value.old ≡ word_count width) × (length unknown.old ≡ word_count width) }
    ensures { lent_by value.new unknown.new ≡ planes_of (bits_in s.now place width) }
{
    let mut left = width as usize;
    for k in 0..value.len() {
        let n = left.min(64);
        left -= n;
        let x = read_word(s, place + left, n);
        value[k] = x.value;
        unknown[k] = x.unknown;
    }
}
