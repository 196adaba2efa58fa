// The readers of a table, and the report of what agrees.
ghost use Rattle.std.specs.Prelude.{◌≡◌, ◌≤◌, max, take, length, nat_lt, IfOk, OnOk, IfSome};
ghost use Rattle.std.specs.Io.KnownBytes.{Appends};
ghost use Rattle.words.specs.Planes.{lent_by};
ghost use Rattle.replay.specs.Text.{Filled, place_from, field_text};
ghost use Rattle.replay.specs.Fields.{field_of, reading, read_field, left_at, are_left};
ghost use Rattle.replay.specs.Calls.{call_of};
ghost use Rattle.replay.specs.Report.{table_in, table_told, line_told, total_told};

use crate::parse::{
    bare, bits_of, decimal, fits, has, load, number_of, part, real, sizes_of, word,
};
use agreement::{Field, same_words};
use std::io;
use std::io::{Read, Write};
use stdin::read_all;

// The table in a file, if it is shorter than the buffer, and else an empty one: how many bytes it has. That it is too long is written out.
pub fn table<R: Read, W: Write>(file: &mut R, s: &mut [u8], out: &mut W) -> io::Result<usize>
    ensures filled { IfOk result (λ n. Filled s.old s.new n) }
    ensures kept { length s.new ≡ length s.old }
    ensures read { IfOk result (λ n. IfSome (R.remaining file.old) (λ t. take n s.new ≡ table_in (length s.old) t)) }
    ensures wrote { OnOk result (IfSome (R.remaining file.old) (λ t.
        Appends (W.contents out.old) (W.contents out.new) (table_told (length s.old) t))) }
{
    let n = read_all(file, s)?;
    if n < s.len() {
        return Ok(n);
    }
    out.write_all(b"the table is too long\n")?;
    Ok(0)
}

// Where the line ends that goes on at a place.
pub fn line_end(s: &[u8], at: usize) -> usize
    ensures { (result ≡ place_from 10 s.now at) × (result ≤ max at (length s.now)) }
{
    let rest = &s[at.min(s.len())..];
    match rest.iter().position(|c| *c == b'\n') {
        Some(n) => at + n,
        None => at.max(s.len()),
    }
}

// The number of the call of a line, by its place in `parse::number_of`, where the names stand in one text: an enum would list them again.
// There is none where the name is none, and where a vector asks for more words than are lent: 16,385 for the first operand, 65 for the
// others.
#[tactic(auto, unfolding(crate::specs::Calls::call_of))]
pub fn call_of(line: &[u8]) -> Option<usize>
    ensures { result ≡ call_of line.now }
{
    if fits(line, 3, 16385) && fits(line, 4, 65) && fits(line, 5, 65) {
        number_of(part(line, 2, b' '))
    } else {
        None
    }
}

// A field in each way that its text can be meant; of its planes m and n words are lent.
#[tactic(auto, unfolding(crate::specs::Fields::field_of))]
fn meant(s: &[u8], m: usize, n: usize) -> Field
    ensures { result ≡ field_of s.now m n }
{
    let e = sizes_of(s);
    let h = e.header;
    Field {
        is_refusal: has(s, b'!'),
        is_real: has(s, b'r'),
        number: decimal(bare(s)),
        real: real(s),
        word: word(bits_of(s)),
        header: h,
        value: m,
        unknown: n,
    }
}

// Field k of a line; a vector's planes are written to the lent ones, as far as those reach.
#[tactic(auto, using(crate::proofs::Readings::together))]
pub fn field(line: &[u8], k: usize, value: &mut [u64], unknown: &mut [u64]) -> Field
    ensures unknown_value { reading result value.new unknown.new
        ≡ read_field k line.now (lent_by value.old unknown.old) }
    ensures value_in_bounds { (result.value ≤ length value.new) × (result.unknown ≤ length unknown.new) }
{
    let s = part(line, k, b' ');
    let e = sizes_of(s);
    let m = e.value.min(value.len());
    let n = e.unknown.min(unknown.len());
    let bits = bits_of(s);
    load(bits, false, value, m);
    load(bits, true, unknown, n);
    meant(s, m, n)
}

// Field k of a line, where no planes are lent.
pub fn plain(line: &[u8], k: usize) -> Field
    ensures { result ≡ field_of (field_text k line.now) 0 0 }
{
    meant(part(line, k, b' '), 0, 0)
}

// The field that tells what a call leaves: the answer or, where that is a refusal, field `out`.
fn left_at(line: &[u8], out: usize) -> usize
    ensures { result ≡ left_at out line.now }
{
    if has(part(line, 0, b' '), b'!') {
        out
    } else {
        0
    }
}

// Whether planes hold what the answer of a line leaves there: its bits or, where it is a refusal, those of field `out`. Of these 65 words
// are read, and planes that are longer hold zeros behind them.

pub fn are_left(line: &[u8], out: usize, value: &[u64], unknown: &[u64]) -> bool
    ensures { result ≡ are_left out line.now (lent_by value.now unknown.now) }
{
    let k = left_at(line, out);
    let mut v = [0u64; 65];
    let mut u = [0u64; 65];
    field(line, k, &mut v, &mut u);
    same_words(value, &v) && same_words(unknown, &u)
}

// Writes a line out if it differs, and else if it is to be shown; gives on whether it agrees.
pub fn report<W: Write>(line: &[u8], agrees: bool, show: bool, out: &mut W) -> io::Result<bool>
    ensures value { IfOk result (λ r. r ≡ agrees) }
    ensures wrote { OnOk result (Appends (W.contents out.old) (W.contents out.new) (line_told line.now agrees show)) }
{
    if agrees && !show {
        return Ok(true);
    }
    if !agrees {
        out.write_all(b"differs: ")?;
    }
    out.write_all(line)?;
    out.write_all(b"\n")?;
    Ok(agrees)
}

// Writes out how many lines of a table agree; gives whether any does.
pub fn total<W: Write>(path: &[u8], agreed: u64, out: &mut W) -> io::Result<bool>
    ensures value { IfOk result (λ r. r ≡ nat_lt 0 agreed) }
    ensures wrote { OnOk result (Appends (W.contents out.old) (W.contents out.new) (total_told path.now agreed)) }
{
    out.write_all(path)?;
    writeln!(out, ": {agreed} agree")?;
    Ok(0 < agreed)
}
