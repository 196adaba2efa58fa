// A store with one cell more, and an input and a step taken where store and arenas agree.
ghost use Rattle.std.specs.Prelude.{◌≡◌, ◌≤◌, ◌<◌, length, IfOk};
ghost use Rattle.refusal.specs.Outcome.{outcome, answer};
ghost use Rattle.words.specs.Planes.{lent_by};
ghost use Rattle.cells.specs.Places.{fields_by};
ghost use Rattle.store.specs.Store.{store_by, with_cell};
ghost use Rattle.store.specs.Step.{memory_by, add_step};
ghost use Rattle.store.specs.Taken.{Laid, take_input, taken_answer, taken_store};

use crate::Store;
use cells::Cell;
use cells::unchecked::copy_behind;
use execute::unchecked::execute;
use machine::Room;
use ops::Step;
use plan::unchecked::{plan_input, plan_step};
use refusal::Refusal;
use value::{Header, check_vector};
use words::unchecked::least;
use words::word_count;

// The store with one cell more.
pub fn with_cell(s: Store, c: Cell) -> Store
    requires { s.count < 320 }
    ensures { result ≡ with_cell c s }
{
    let k = s.count;
    let mut t = s;
    t.cells[k] = c;
    t.count = k + 1;
    t
}

// Puts a vector behind `count` cells that take the first `next` words of the arenas: the word at which it begins, or its refusal.
pub fn take_input(
    count: usize,
    next: usize,
    h: Header,
    value: &[u64],
    unknown: &[u64],
    av: &mut [u64],
    au: &mut [u64],
) -> Result<usize, Refusal>
    requires { (next ≤ length av.old) × (length av.old ≡ length au.old) }
    ensures { outcome (answer result) (lent_by av.new au.new)
        ≡ take_input count next h (lent_by value.now unknown.now) (lent_by av.old au.old) }
{
    let checked = check_vector(h, value, unknown);
    let room = Room {
        arena: av.len(),
        scratch: 0,
    };
    let at = plan_input(count, next, h.width, checked, room)?;
    copy_behind(at, word_count(h.width), value, unknown, av, au);
    Ok(at)
}

// Plans a step on the first `count` cells, which take the first `next` words of the arenas, and executes it if it is not refused.
pub fn take_step<'a>(
    step: Step,
    count: usize,
    next: usize,
    starts: &'a [usize; 320],
    widths: &'a [u32; 320],
    signs: &'a [bool; 320],
    fills: &'a [bool; 320],
    av: &mut [u64],
    au: &mut [u64],
    sv: &mut [u64],
    su: &mut [u64],
) -> Result<Cell, Refusal>
    requires { Laid (fields_by starts.now widths.now signs.now fills.now) count next (lent_by av.old au.old) }
    ensures taken { outcome (taken_answer count result)
        (memory_by (taken_store result (store_by count starts.now widths.now signs.now fills.now))
        av.new au.new sv.new su.new)
        ≡ add_step
        (memory_by (store_by count starts.now widths.now signs.now fills.now)
        av.old au.old sv.old su.old)
        step }
    ensures few { IfOk result (λ _. count < 320) }
{
    let room = Room {
        arena: av.len(),
        scratch: least(sv.len(), su.len()),
    };
    let p = plan_step(step, count, next, widths, signs, fills, room)?;
    execute(p, starts, widths, signs, fills, av, au, sv, su);
    Ok(Cell {
        start: p.start,
        header: p.header,
    })
}
