// The value of a sized literal (IEEE 1800-2017, 5.7.1): what its characters stand for. A base is its letter:
// `radix`, `is_decimal` and `fill_planes`, which docs/PROMISES.md names, take any byte for one.
#![tactic(auto)]

ghost use Rattle.std.specs.Prelude.{◌≡◌, [], ◌∷◌};
ghost use Rattle.literal_words.specs.Digits.{is_x, is_z, is_unknown, is_d, digit_of, radix as radix_of};
ghost use Rattle.literal_words.specs.Digits.{leading as leading_bit};

use bit::LogicBit;

pub mod unchecked;

// The largest size of a literal.
pub const MAX_SIZE: u32 = 4096;

// x or X.
fn is_x(c: u8) -> bool
    ensures { result ≡ is_x c }
{
    (c == b'x') | (c == b'X')
}

// z, Z or ?.
fn is_z(c: u8) -> bool
    ensures { result ≡ is_z c }
{
    (c == b'z') | ((c == b'Z') | (c == b'?'))
}

// x or z.
pub fn is_unknown(c: u8) -> bool
    ensures { result ≡ is_unknown c }
{
    is_x(c) | is_z(c)
}

// The number of a digit 0 to 9, a to f or A to F; none for any other character.
pub fn digit_number(c: u8) -> Option<u64>
    ensures { result ≡ digit_of c }
{
    // Tests one after the other: a `match` on ranges takes more instructions for each digit.
    if (b'0' <= c) & (c <= b'9') {
        return Some((c - b'0') as u64);
    }
    if (b'a' <= c) & (c <= b'f') {
        return Some((c - 87) as u64);
    }
    if (b'A' <= c) & (c <= b'F') {
        return Some((c - 55) as u64);
    }
    None
}

// d or D.
pub fn is_decimal(base: u8) -> bool
    ensures { result ≡ is_d base }
{
    (base == b'd') | (base == b'D')
}

// 2 for b, 8 for o, 10 for d, else 16.
#[tactic(auto, unfolding(crate::specs::Digits::radix))]
pub fn radix(base: u8) -> u64
    ensures { result ≡ radix_of base }
{
    match base {
        b'b' | b'B' => 2,
        b'o' | b'O' => 8,
        b'd' | b'D' => 10,
        _ => 16,
    }
}

// The bit beyond the digits, by the first of them: x or z if that is one, else 0.
#[tactic(auto, unfolding(crate::specs::Digits::leading))]
fn leading(c: u8) -> LogicBit
    ensures { result ≡ leading_bit (c ∷ []) }
{
    if is_x(c) {
        return LogicBit::X;
    }
    if is_z(c) { LogicBit::Z } else { LogicBit::Zero }
}
