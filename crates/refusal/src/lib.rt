// The numbered refusals of documents 01 and 02, one case for each number.
#![tactic(auto)]

ghost use Rattle.std.specs.Prelude.{◌≡◌};
ghost use Rattle.refusal.specs.Refusals.{refusal_number};

// Why a call was not done.
#[derive(Clone, Copy, PartialEq, Eq)]
pub enum Refusal {
    // The width is above 1,048,576.
    TooWide = 1,
    // A plane is not exactly its word count; a float's planes are not empty.
    PlaneLength = 2,
    // A bit is set at or above the width.
    BitAboveWidth = 3,
    // A fill of width 0.
    EmptyFill = 4,
    // An output plane is not exactly the result's word count; the text for a literal is not exactly as long as the literal.
    OutputLength = 5,
    // The step list breaks its format or its 65,536 bytes.
    BadFormat = 6,
    // The arms of sel differ in width, or one is a fill.
    BadArms = 7,
    // An operand names a cell that is not yet filled.
    NoSuchCell = 11,
    // There are 320 cells already.
    StoreFull = 12,
    // An arena behind the last cell, or a scratch plane, has too few words.
    NoRoom = 13,
    // The arenas differ in length, or store and arenas disagree.
    BadStore = 14,
    // The text is no sized literal, or the vector to write as one is a fill or not 1 to 4,096 bits wide.
    BadLiteral = 15,
}

// The number of a refusal.
impl From<Refusal> for u8 {
    ghost from_gives = { λ r n. n ≡ refusal_number r };

    fn from(r: Refusal) -> u8 {
        r as u8
    }
}
