// A store of cells as it crosses to C and Rust: its four arrays written, and the answer of a call on it as numbers.
#![tactic(auto)]

ghost use Rattle.std.specs.Prelude.{◌≡◌};
ghost use Rattle.refusal.specs.Outcome.{answer};
ghost use Rattle.cells.specs.Places.{fields_by, fields_of};
ghost use Rattle.store_abi.specs.Settled.{coded_cell, settled, settled_by};

use refusal::Refusal;
use store::{Store, Stored, fields_of};

// 0 where the call was done, and then the number of the new cell.
#[repr(C)]
#[derive(Clone, Copy)]
pub struct CellResult {
    pub refusal: u8,
    pub cell: usize,
}

impl From<Result<usize, Refusal>> for CellResult {
    ghost from_gives = { λ a r. r ≡ coded_cell (answer a) };

    fn from(a: Result<usize, Refusal>) -> CellResult {
        match a {
            Ok(cell) => CellResult { refusal: 0, cell },
            Err(r) => CellResult {
                refusal: u8::from(r),
                cell: 0,
            },
        }
    }
}

// Writes the four arrays of a store.
pub fn save(
    s: Store,
    starts: &mut [usize; 320],
    widths: &mut [u32; 320],
    signs: &mut [bool; 320],
    fills: &mut [bool; 320],
)
    ensures { fields_by starts.new widths.new signs.new fills.new ≡ fields_of s.cells }
{
    let f = fields_of(s);
    // An array that is a field cannot be stored without a variable.
    let a = f.starts;
    *starts = a;
    let b = f.widths;
    *widths = b;
    let c = f.signs;
    *signs = c;
    let d = f.fills;
    *fills = d;
}

// The answer of a call that adds a cell, as numbers; the arrays are written only where a cell was added.
pub fn settle(
    r: Stored,
    starts: &mut [usize; 320],
    widths: &mut [u32; 320],
    signs: &mut [bool; 320],
    fills: &mut [bool; 320],
) -> CellResult
    ensures { settled result (fields_by starts.new widths.new signs.new fills.new)
        ≡ settled_by (answer r.answer) r.store (fields_by starts.old widths.old signs.old fills.old) }
{
    if r.answer.is_ok() {
        save(r.store, starts, widths, signs, fills);
    }
    CellResult::from(r.answer)
}
