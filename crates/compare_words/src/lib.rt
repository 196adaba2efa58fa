// The comparisons of two vectors, decided place by place in one scan.
#![tactic(auto)]

ghost use Rattle.std.specs.Prelude.{◌≡◌};
ghost use Rattle.compare_words.specs.Compared.{found_bit};

use bit::LogicBit;

pub mod unchecked;

// How two vectors are compared, place by place.
#[derive(Clone, Copy)]
pub enum Comparison {
    Equal,
    CaseEqual,
    CasezEqual,
    CasexEqual,
    WildcardEqual,
}

// What a scan of two operands finds: the lowest place that mismatches; where none does, the lowest that leaves the answer open.
#[derive(Clone, Copy)]
pub enum Found {
    Mismatch(u32),
    Unsure(u32),
    Same,
}

// The answer of a comparison, by what its scan found: 0, x or 1.
impl From<Found> for LogicBit {
    ghost from_gives = { λ f b. b ≡ found_bit f };

    fn from(found: Found) -> LogicBit {
        match found {
            Found::Mismatch(_) => LogicBit::Zero,
            Found::Unsure(_) => LogicBit::X,
            Found::Same => LogicBit::One,
        }
    }
}
