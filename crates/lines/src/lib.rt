// Writers into a lent buffer: the lines of a text, a key and behind it a number or the bits of a vector; and a number or bits alone.
#![tactic(auto)]

ghost use Rattle.std.specs.Prelude.{◌≡◌};
ghost use Rattle.text.specs.Write.{bit_byte};

use bit::LogicBit;

pub mod unchecked;

// The character of a bit: 0, 1, x or z.
pub fn bit_byte(b: LogicBit) -> u8
    ensures { result ≡ bit_byte b }
{
    match b {
        LogicBit::Zero => b'0',
        LogicBit::One => b'1',
        LogicBit::X => b'x',
        LogicBit::Z => b'z',
    }
}
