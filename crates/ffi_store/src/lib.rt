// The calls of the cell store for C and Rust, as numbers, slices and arrays: a store crosses as its number of cells and four arrays of 320
// places. Each export asks nothing of its caller, and a refusal changes nothing.
#![tactic(auto)]

ghost use Rattle.std.specs.Prelude.{◌≡◌};
ghost use Rattle.words.specs.Planes.{lent_by};
ghost use Rattle.ops.specs.Names.{op_of};
ghost use Rattle.store.specs.Store.{state_by, add_input, store_by};
ghost use Rattle.store.specs.Step.{memory_by};
ghost use Rattle.cells.specs.Places.{fields_by};
ghost use Rattle.store_abi.specs.Settled.{settled, crossed};
ghost use Rattle.ffi_store.specs.Crossing.{crossed_input, add_step_of, crossed_step};

use ops::{Step, op_of};
use store::store_of;
use store_abi::{CellResult, settle};
use value::Header;

// `Store::add_input` on the store of `count` cells that the four arrays say; where it is done, the store has one cell more
#[unsafe(no_mangle)]
pub extern "C" fn vowherunga_add_input(
    count: usize,
    starts: &mut [usize; 320],
    widths: &mut [u32; 320],
    signs: &mut [bool; 320],
    fills: &mut [bool; 320],
    h: Header,
    value: &[u64],
    unknown: &[u64],
    arena_value: &mut [u64],
    arena_unknown: &mut [u64],
) -> CellResult
    ensures { crossed (settled result (fields_by starts.new widths.new signs.new fills.new))
        (lent_by arena_value.new arena_unknown.new)
        ≡ crossed_input (fields_by starts.old widths.old signs.old fills.old)
        (add_input
        (state_by (store_by count starts.old widths.old signs.old fills.old)
        arena_value.old arena_unknown.old)
        h (lent_by value.now unknown.now)) }
{
    let s = store_of(count, starts, widths, signs, fills);
    let r = s.add_input(h, value, unknown, arena_value, arena_unknown);
    settle(r, starts, widths, signs, fills)
}

// `Store::add_step` on that store, the op by its code; where it is done, the store has one cell more. A code that is no op's is answered by
// 255 and changes nothing.
#[unsafe(no_mangle)]
pub extern "C" fn vowherunga_add_step(
    count: usize,
    starts: &mut [usize; 320],
    widths: &mut [u32; 320],
    signs: &mut [bool; 320],
    fills: &mut [bool; 320],
    op: u8,
    a: u32,
    b: u32,
    c: u32,
    arena_value: &mut [u64],
    arena_unknown: &mut [u64],
    scratch_value: &mut [u64],
    scratch_unknown: &mut [u64],
) -> CellResult
    ensures { crossed (settled result (fields_by starts.new widths.new signs.new fills.new))
        (lent_by arena_value.new arena_unknown.new, lent_by scratch_value.new scratch_unknown.new)
        ≡ crossed_step (fields_by starts.old widths.old signs.old fills.old)
        (add_step_of (op_of op) a b c
        (memory_by (store_by count starts.old widths.old signs.old fills.old)
        arena_value.old arena_unknown.old scratch_value.old scratch_unknown.old)) }
{
    match op_of(op) {
        None => CellResult {
            refusal: 255,
            cell: 0,
        },
        Some(o) => {
            let s = store_of(count, starts, widths, signs, fills);
            let step = Step {
                op: o,
                a: a,
                b: b,
                c: c,
            };
            let r = s.add_step(
                step,
                arena_value,
                arena_unknown,
                scratch_value,
                scratch_unknown,
            );
            settle(r, starts, widths, signs, fills)
        }
    }
}
