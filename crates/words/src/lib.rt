// A vector as planes of 64-bit words: the pair of words, the word count, and the functions and laws on words that all others use.
#![tactic(auto)]

ghost use Rattle.std.specs.Prelude.{◌≡◌};
ghost use Rattle.words.specs.Planes.{word_count};

pub mod unchecked;

// A word of the value plane and the word of the unknown plane beside it.
#[repr(C)]
#[derive(Clone, Copy, PartialEq, Eq)]
pub struct Word {
    pub value: u64,
    pub unknown: u64,
}

// How many words a plane of `width` bits has: the larger of 1 and width / 64, rounded up.
pub fn word_count(width: u32) -> usize
    ensures { result ≡ word_count width }
{
    let w = width as usize;
    if w == 0 { 1 } else { (w - 1) / 64 + 1 }
}
