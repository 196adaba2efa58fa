// When the answer that a line of a table tells is what a call gave: a field of a line as it was read, compared with a bit, a decision, a
// vector's header or planes.
#![tactic(auto)]

ghost use Rattle.std.specs.Prelude.{◌≡◌, get_or};
ghost use Rattle.agreement.specs.Answers.{answered, same_code, same_decision, same_header};
ghost use Rattle.agreement.specs.Holds.{holds_from, same_words};

use abi::{BitResult, DecisionResult, HeaderResult};
use value::Header;
use words::Word;

// A field of a line, read in each way that its text can be meant: the two flags tell how it is meant, and the other fields hold whatever it
// is, so none of them is an `Option`.
#[derive(Clone, Copy)]
pub struct Field {
    pub is_refusal: bool,
    pub is_real: bool,
    // The number, or that of the refusal.
    pub number: u64,
    pub real: f64,
    // The lowest 64 bits.
    pub word: Word,
    pub header: Header,
    // How many words of each lent plane the vector takes.
    pub value: usize,
    pub unknown: usize,
}

// Whether a line's answer is that of a call: the number of its refusal, or no refusal and what else was compared.
pub fn answers(f: Field, refusal: u8, same: bool) -> bool
    ensures { result ≡ answered f refusal same }
{
    if refusal == 0 {
        !f.is_refusal && same
    } else {
        f.is_refusal && f.number == u64::from(refusal)
    }
}

fn same_code(w: Word, code: u8) -> bool
    ensures { result ≡ same_code w code }
{
    let code = u64::from(code);
    w == Word {
        value: code % 2,
        unknown: code / 2,
    }
}

// Whether a line's answer is the bit that a call gave.
pub fn is_bit(f: Field, r: BitResult) -> bool
    ensures { result ≡ answered f r.refusal (same_code f.word r.bit) }
{
    answers(f, r.refusal, same_code(f.word, r.bit))
}

fn same_decision(w: Word, rule: u64, place: u64, r: DecisionResult) -> bool
    ensures { result ≡ same_decision w rule place r }
{
    rule == u64::from(r.rule) && place == u64::from(r.place) && same_code(w, r.bit)
}

// Whether a line's answer, rule and place are those of the decision that a call gave.
pub fn is_decision(f: Field, rule: u64, place: u64, r: DecisionResult) -> bool
    ensures { result ≡ answered f r.refusal (same_decision f.word rule place r) }
{
    answers(f, r.refusal, same_decision(f.word, rule, place, r))
}

fn same_header(h: Header, r: HeaderResult) -> bool
    ensures { result ≡ same_header h r }
{
    h == Header {
        width: r.width,
        is_signed: r.is_signed,
        is_fill: r.is_fill,
    }
}

// Whether a line's answer is a vector with the header that a call gave.
pub fn is_vector(f: Field, r: HeaderResult) -> bool
    ensures { result ≡ answered f r.refusal (same_header f.header r) }
{
    answers(f, r.refusal, same_header(f.header, r))
}

fn word_at(words: &[u64], k: usize) -> u64
    ensures { result ≡ get_or words.now k 0 }
{
    words.get(k).copied().unwrap_or(0)
}

// Whether each word of a plane is the word at its place, or 0 where there is none.
#[tactic(auto, using(crate::proofs::Turns::done, crate::proofs::Turns::same, crate::proofs::Turns::other))]
fn holds(plane: &[u64], words: &[u64]) -> bool
    ensures { result ≡ holds_from 0 plane.now words.now }
{
    for (k, word) in plane.iter().enumerate() {
        if *word != word_at(words, k) {
            return false;
        }
    }
    true
}

// Whether two planes have the same words, with zeros behind the shorter.
pub fn same_words(a: &[u64], b: &[u64]) -> bool
    ensures { result ≡ same_words a.now b.now }
{
    holds(a, b) && holds(b, a)
}
