// The calls on bits and words of a vector that is lent, by their numbers in `replay`.
use abi::{BitResult, WordResult};
use agreement::{Field, answers, is_bit};
use fourstate::bitcode::LogicBit;
use fourstate::bitplanes::Word;
use fourstate::vectors::{Header, Refusal};
use fourstate::{bitplanes, operators};
use replay::unchecked::{are_left, plain};

// A field that is a number.
pub(crate) fn number(line: &[u8], k: usize) -> u64 {
    let f = plain(line, k);
    f.number
}

// Whether a line's answer is the word that a call gave.
fn is_word(f: Field, r: WordResult) -> bool {
    let w = f.word;
    answers(f, r.refusal, w.value == r.value && w.unknown == r.unknown)
}

// Whether a call that reads has the line's answer.
pub(crate) fn reads(call: usize, line: &[u8], h: Header, value: &[u64], unknown: &[u64]) -> bool {
    let width = h.width;
    let want = plain(line, 0);
    let i = number(line, 4) as usize;
    let n = number(line, 5) as usize;
    match call {
        0 => is_bit(
            want,
            BitResult::from(bitplanes::get(width, value, unknown, i)),
        ),
        _ => is_word(
            want,
            WordResult::from(bitplanes::extract64(width, value, unknown, i, n)),
        ),
    }
}

// A call that does not say whether a bit changed, as if it said no.
fn done(v: Result<(), Refusal>) -> BitResult {
    BitResult {
        refusal: abi::done(v),
        bit: 0,
    }
}

// A call that writes bits at a place: whether it says that a bit changed.
fn write(
    call: usize,
    h: Header,
    value: &mut [u64],
    unknown: &mut [u64],
    i: usize,
    bits: Word,
    n: usize,
) -> BitResult {
    let width = h.width;
    match call {
        2 => {
            let code = (bits.value % 2 + bits.unknown % 2 * 2) as u8;
            done(bitplanes::set(width, value, unknown, i, LogicBit::from(code)))
        }
        3 => done(bitplanes::splice64(width, value, unknown, i, bits, n)),
        4 => BitResult::from(operators::splice_bits64(h, value, unknown, i, bits, n)),
        _ => done(bitplanes::mask_top(width, value, unknown)),
    }
}

// Whether a call that writes has the line's answer, says that a bit changed if field 7 is 1, and leaves the planes as the answer says.
pub(crate) fn writes(
    call: usize,
    line: &[u8],
    h: Header,
    value: &mut [u64],
    unknown: &mut [u64],
) -> bool {
    let f = plain(line, 5);
    let n = number(line, 6) as usize;
    let r = write(call, h, value, unknown, number(line, 4) as usize, f.word, n);
    let left = are_left(line, 3, value, unknown);
    answers(plain(line, 0), r.refusal, r.bit as u64 == number(line, 7)) && left
}
