// A vector's bits put together into one: the reductions, and truth.
#![tactic(auto)]

ghost use Rattle.std.specs.Prelude.{◌≡◌};
ghost use Rattle.reduce_words.specs.Fold.{truth_bit};

use bit::LogicBit;

pub mod unchecked;

// Whether an operand counts as true; unknown where its unknown bits decide.
#[derive(Clone, Copy)]
pub enum Truth {
    False,
    True,
    Unknown,
}

// A truth as a bit: 0, 1, or x where it is unknown.
impl From<Truth> for LogicBit {
    ghost from_gives = { λ t b. b ≡ truth_bit t };

    fn from(t: Truth) -> LogicBit {
        match t {
            Truth::False => LogicBit::Zero,
            Truth::True => LogicBit::One,
            Truth::Unknown => LogicBit::X,
        }
    }
}
