// Insert: bits of a word put into a vector in place.
#![tactic(auto)]

ghost use Rattle.std.specs.Prelude.{◌≡◌};
ghost use Rattle.refusal.specs.Outcome.{outcome, answer};
ghost use Rattle.words.specs.Planes.{lent_by};
ghost use Rattle.insert.specs.Insert.{insert_bits};

use refusal::Refusal;
use value::{Header, check_vector};
use words::Word;

pub mod unchecked;

// Puts the lowest bits of a word in from `pos` on: the least of n, 64 and the width minus `pos` of them. Whether a bit changed.
#[tactic(auto, using(value::proofs::Checks::vector_accepted))]
pub fn splice_bits64(
    a: Header,
    value: &mut [u64],
    unknown: &mut [u64],
    pos: usize,
    bits: Word,
    n: usize,
) -> Result<bool, Refusal>
    ensures { outcome (answer result) (lent_by value.new unknown.new)
        ≡ insert_bits a (lent_by value.old unknown.old) pos bits n }
{
    check_vector(a, value, unknown)?;
    Ok(unchecked::splice_bits64(a.width, value, unknown, pos, bits, n))
}
