// The answers of the entries as numbers, for C and Rust. A refusal is its number, and 0 is done; a bit is its code, a word of both planes
// two numbers, a rule its number, counted from 1, and its place, 0 where it has none; the other fields of a refused call are 0.
#![tactic(auto)]

ghost use Rattle.std.specs.Prelude.{◌≡◌};
ghost use Rattle.refusal.specs.Outcome.{answer};
ghost use Rattle.refusal.specs.Outcome.Answer.{given};
ghost use Rattle.abi.specs.Coded.{coded_done, coded_bit, coded_word, coded_header, coded_change, coded_truth, coded_length, operand_of};
ghost use Rattle.abi.specs.Coded.{coded_decision};

use bit::LogicBit;
use decide::{Decision, Rule};
use reduce_words::Truth;
use refusal::Refusal;
use value::{Header, Operand};
use words::Word;

#[repr(C)]
#[derive(Clone, Copy)]
pub struct BitResult {
    pub refusal: u8,
    pub bit: u8,
}

#[repr(C)]
#[derive(Clone, Copy)]
pub struct WordResult {
    pub refusal: u8,
    pub value: u64,
    pub unknown: u64,
}

#[repr(C)]
#[derive(Clone, Copy)]
pub struct HeaderResult {
    pub refusal: u8,
    pub width: u32,
    pub is_signed: bool,
    pub is_fill: bool,
}

#[repr(C)]
#[derive(Clone, Copy)]
pub struct LengthResult {
    pub refusal: u8,
    pub length: usize,
}

#[repr(C)]
#[derive(Clone, Copy)]
pub struct DecisionResult {
    pub refusal: u8,
    pub bit: u8,
    pub rule: u8,
    pub place: u32,
}

// 0 where the call was done. No `From`: neither type is this crate's.
pub fn done(v: Result<(), Refusal>) -> u8
    ensures { result ≡ coded_done (answer v) }
{
    match v {
        Ok(()) => 0,
        Err(r) => u8::from(r),
    }
}

// A bit by its code.
impl From<Result<LogicBit, Refusal>> for BitResult {
    ghost from_gives = { λ a r. r ≡ coded_bit (answer a) };

    fn from(a: Result<LogicBit, Refusal>) -> BitResult {
        match a {
            Ok(b) => BitResult {
                refusal: 0,
                bit: u8::from(b),
            },
            Err(r) => BitResult {
                refusal: u8::from(r),
                bit: 0,
            },
        }
    }
}

// A word of both planes.
impl From<Result<Word, Refusal>> for WordResult {
    ghost from_gives = { λ a r. r ≡ coded_word (answer a) };

    fn from(a: Result<Word, Refusal>) -> WordResult {
        match a {
            Ok(w) => WordResult {
                refusal: 0,
                value: w.value,
                unknown: w.unknown,
            },
            Err(r) => WordResult {
                refusal: u8::from(r),
                value: 0,
                unknown: 0,
            },
        }
    }
}

// The header of a vector that was written, or of a literal's vector.
impl From<Result<Header, Refusal>> for HeaderResult {
    ghost from_gives = { λ a r. r ≡ coded_header (answer a) };

    fn from(a: Result<Header, Refusal>) -> HeaderResult {
        match a {
            Ok(h) => HeaderResult {
                refusal: 0,
                width: h.width,
                is_signed: h.is_signed,
                is_fill: h.is_fill,
            },
            Err(r) => HeaderResult {
                refusal: u8::from(r),
                width: 0,
                is_signed: false,
                is_fill: false,
            },
        }
    }
}

// Whether an insert changed a bit: 0 is no, 1 is yes.
impl From<Result<bool, Refusal>> for BitResult {
    ghost from_gives = { λ a r. r ≡ coded_change (answer a) };

    fn from(a: Result<bool, Refusal>) -> BitResult {
        match a {
            Ok(c) => BitResult {
                refusal: 0,
                bit: c as u8,
            },
            Err(r) => BitResult {
                refusal: u8::from(r),
                bit: 0,
            },
        }
    }
}

// A truth by the code of its bit.
impl From<Result<Truth, Refusal>> for BitResult {
    ghost from_gives = { λ a r. r ≡ coded_truth (answer a) };

    fn from(a: Result<Truth, Refusal>) -> BitResult {
        match a {
            Ok(t) => BitResult {
                refusal: 0,
                bit: u8::from(LogicBit::from(t)),
            },
            Err(r) => BitResult {
                refusal: u8::from(r),
                bit: 0,
            },
        }
    }
}

// A bit by its code, and the number and place of the rule that decided it.
impl From<Decision> for DecisionResult {
    ghost from_gives = { λ d r. r ≡ coded_decision (given d) };

    fn from(d: Decision) -> DecisionResult {
        let (rule, place) = match d.rule {
            Rule::KnownMismatch(i) => (1, i),
            Rule::Unknown(i) => (2, i),
            Rule::AllEqual => (3, 0),
            Rule::Numeric => (4, 0),
        };
        DecisionResult {
            refusal: 0,
            bit: u8::from(d.bit),
            rule: rule,
            place: place,
        }
    }
}

// A decision by its bit and rule.
impl From<Result<Decision, Refusal>> for DecisionResult {
    ghost from_gives = { λ a r. r ≡ coded_decision (answer a) };

    fn from(a: Result<Decision, Refusal>) -> DecisionResult {
        match a {
            Ok(d) => DecisionResult::from(d),
            Err(r) => DecisionResult {
                refusal: u8::from(r),
                bit: 0,
                rule: 0,
                place: 0,
            },
        }
    }
}

// The length of a literal.
impl From<Result<usize, Refusal>> for LengthResult {
    ghost from_gives = { λ a r. r ≡ coded_length (answer a) };

    fn from(a: Result<usize, Refusal>) -> LengthResult {
        match a {
            Ok(n) => LengthResult {
                refusal: 0,
                length: n,
            },
            Err(r) => LengthResult {
                refusal: u8::from(r),
                length: 0,
            },
        }
    }
}

// An operand of equality and truth: a real, or a vector's header.
pub fn operand(is_real: bool, header: Header, real: f64) -> Operand
    ensures { result ≡ operand_of is_real header real }
{
    if is_real {
        return Operand::Real(real);
    }
    Operand::Vector(header)
}
