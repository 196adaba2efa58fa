// A vector as two lent planes of 64-bit words, value and unknown. Bit i is bit i mod 64 of word i div 64 of each plane: 0 is stored as
// (0,0), 1 as (1,0), x as (0,1) and z as (1,1). Bits at or above the width are 0.
#![tactic(auto)]

ghost use Rattle.std.specs.Prelude.{◌≡◌};
ghost use Rattle.refusal.specs.Outcome.{outcome, answer};
ghost use Rattle.words.specs.Planes.{lent_by};
ghost use Rattle.planes.specs.Entries.{get_bit, set_bit, splice_bits, extract_bits, mask_top};

use bit::LogicBit;
use refusal::Refusal;
use value::{check_lengths, check_planes};
use words::Word;

// Bit i; 0 at or above the width.
#[tactic(auto, using(value::proofs::Checks::planes_accepted))]
pub fn get(width: u32, value: &[u64], unknown: &[u64], i: usize) -> Result<LogicBit, Refusal>
    ensures { answer result ≡ get_bit width (lent_by value.now unknown.now) i }
{
    check_planes(width, value, unknown)?;
    Ok(bits::unchecked::get(width, value, unknown, i))
}

// Makes bit i the given bit; at or above the width nothing changes.
#[tactic(auto, using(value::proofs::Checks::planes_accepted, crate::proofs::Placed::placed))]
pub fn set(
    width: u32,
    value: &mut [u64],
    unknown: &mut [u64],
    i: usize,
    bit: LogicBit,
) -> Result<(), Refusal>
    ensures { outcome (answer result) (lent_by value.new unknown.new)
        ≡ set_bit width (lent_by value.old unknown.old) i bit }
{
    check_planes(width, value, unknown)?;
    let b = words::unchecked::filled(bit);
    bits::unchecked::splice64(width, value, unknown, i, b, 1);
    Ok(())
}

// Puts the lowest bits of a word in from `pos` on: the least of n, 64 and the width minus `pos` of them.
#[tactic(auto, using(value::proofs::Checks::planes_accepted))]
pub fn splice64(
    width: u32,
    value: &mut [u64],
    unknown: &mut [u64],
    pos: usize,
    bits: Word,
    n: usize,
) -> Result<(), Refusal>
    ensures { outcome (answer result) (lent_by value.new unknown.new)
        ≡ splice_bits width (lent_by value.old unknown.old) pos bits n }
{
    check_planes(width, value, unknown)?;
    bits::unchecked::splice64(width, value, unknown, pos, bits, n);
    Ok(())
}

// The n bits from `pos` on, at most 64; 0 beyond the width.
#[tactic(auto, using(value::proofs::Checks::planes_accepted))]
pub fn extract64(
    width: u32,
    value: &[u64],
    unknown: &[u64],
    pos: usize,
    n: usize,
) -> Result<Word, Refusal>
    ensures { answer result ≡ extract_bits width (lent_by value.now unknown.now) pos n }
{
    check_planes(width, value, unknown)?;
    Ok(bits::unchecked::extract64(width, value, unknown, pos, n))
}

// Clears the bits at or above the width; at width 0 none.
#[tactic(auto, using(value::proofs::Checks::lengths_accepted))]
pub fn mask_top(width: u32, value: &mut [u64], unknown: &mut [u64]) -> Result<(), Refusal>
    ensures { outcome (answer result) (lent_by value.new unknown.new)
        ≡ mask_top width (lent_by value.old unknown.old) }
{
    check_lengths(width, value, unknown)?;
    words::unchecked::mask_plane(value, width);
    words::unchecked::mask_plane(unknown, width);
    Ok(())
}
