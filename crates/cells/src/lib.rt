// Cells: vectors whose words lie one behind the other in two lent arenas. What is read of them, their check, and how the words of one
// are put behind the last.
#![tactic(auto)]

ghost use Rattle.std.specs.Prelude.{◌≡◌, take};
ghost use Rattle.refusal.specs.Outcome.{after, answer};
ghost use Rattle.refusal.specs.Outcome.Answer.{given};
ghost use Rattle.words.specs.Planes.{lent_by};
ghost use Rattle.cells.specs.Cells.{word_behind, check_cells};
ghost use Rattle.cells.specs.Places.{no_fields};

use refusal::Refusal;
use unchecked::cell_agrees;
use value::Header;
use words::word_count;

pub mod unchecked;

// Where a vector's words begin in both arenas, and its header.
#[derive(Clone, Copy)]
pub struct Cell {
    pub start: usize,
    pub header: Header,
}

// The start words, the widths and the two marks of 320 cells, as arrays that can be lent.
#[derive(Clone, Copy)]
pub struct Fields {
    pub starts: [usize; 320],
    pub widths: [u32; 320],
    pub signs: [bool; 320],
    pub fills: [bool; 320],
}

// The four arrays of 320 places without a cell.
pub fn no_fields() -> Fields
    ensures { result ≡ no_fields }
{
    Fields {
        starts: [0; 320],
        widths: [0; 320],
        signs: [false; 320],
        fills: [false; 320],
    }
}

// The word behind the first `count` of 320 cells, or 14 if the cells and their arenas disagree.
#[tactic(auto, unfolding(crate::specs::Cells::check_cells, crate::specs::Cells::agree))]
pub fn check_cells(
    cells: [Cell; 320],
    count: usize,
    value: &[u64],
    unknown: &[u64],
) -> Result<usize, Refusal>
    ensures { answer result
        ≡ after (check_cells (lent_by value.now unknown.now) cells count) (given (word_behind (take count cells))) }
{
    if 320 < count || value.len() != unknown.len() {
        return Err(Refusal::BadStore);
    }
    let mut at = 0;
    for c in &cells[..count] {
        if !cell_agrees(*c, at, value, unknown) {
            return Err(Refusal::BadStore);
        }
        at += word_count(c.header.width);
    }
    Ok(at)
}
