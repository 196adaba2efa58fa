// A four-state bit: its code, and the single-bit rules as constant tables over bit codes.
#![tactic(auto)]

ghost use Rattle.std.specs.Prelude.{◌≡◌};
ghost use Rattle.bit.specs.Rules.{code, of_code, entry, and_bit, or_bit, xor_bit, merge_bit, not_bit};

// 0 and 1 are known; x and z are unknown.
#[derive(Clone, Copy, PartialEq, Eq)]
pub enum LogicBit {
    Zero = 0,
    One = 1,
    X = 2,
    Z = 3,
}

// The rules over bit codes: row by left bit, column by right bit.
const AND: [[u8; 4]; 4] = [[0, 0, 0, 0], [0, 1, 2, 2], [0, 2, 2, 2], [0, 2, 2, 2]];

const OR: [[u8; 4]; 4] = [[0, 1, 2, 2], [1, 1, 1, 1], [2, 1, 2, 2], [2, 1, 2, 2]];

const XOR: [[u8; 4]; 4] = [[0, 1, 2, 2], [1, 0, 2, 2], [2, 2, 2, 2], [2, 2, 2, 2]];

const MERGE: [[u8; 4]; 4] = [[0, 2, 2, 2], [2, 1, 2, 2], [2, 2, 2, 2], [2, 2, 2, 2]];

const NOT: [u8; 4] = [1, 0, 2, 2];

// The code of a bit: 0, 1, 2 for x, 3 for z.
impl From<LogicBit> for u8 {
    ghost from_gives = { λ b n. n ≡ code b };

    fn from(b: LogicBit) -> u8 {
        b as u8
    }
}

// The bit of a code; a number above 3 is taken modulo 4.
impl From<u8> for LogicBit {
    ghost from_gives = { λ n b. b ≡ of_code n };

    fn from(n: u8) -> LogicBit {
        let m = n % 4;
        match m {
            0 => LogicBit::Zero,
            1 => LogicBit::One,
            2 => LogicBit::X,
            _ => LogicBit::Z,
        }
    }
}

// The bit at row a and column b of a table of codes.
fn look(t: [[u8; 4]; 4], a: LogicBit, b: LogicBit) -> LogicBit
    ensures { result ≡ of_code (entry t a b) }
{
    let i = u8::from(a) as usize;
    let j = u8::from(b) as usize;
    LogicBit::from(t[i][j])
}

// 0 if either is 0, 1 if both are 1, else x.
pub fn and(a: LogicBit, b: LogicBit) -> LogicBit
    ensures { result ≡ and_bit a b }
{
    look(AND, a, b)
}

// 1 if either is 1, 0 if both are 0, else x.
pub fn or(a: LogicBit, b: LogicBit) -> LogicBit
    ensures { result ≡ or_bit a b }
{
    look(OR, a, b)
}

// x if either is unknown, else whether they differ.
pub fn xor(a: LogicBit, b: LogicBit) -> LogicBit
    ensures { result ≡ xor_bit a b }
{
    look(XOR, a, b)
}

// The bit if both are known and equal, else x.
pub fn merge(a: LogicBit, b: LogicBit) -> LogicBit
    ensures { result ≡ merge_bit a b }
{
    look(MERGE, a, b)
}

// 0 gives 1, 1 gives 0, x and z give x.
pub fn not(a: LogicBit) -> LogicBit
    ensures { result ≡ not_bit a }
{
    let i = u8::from(a) as usize;
    LogicBit::from(NOT[i])
}
