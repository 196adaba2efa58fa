// The cell store: at most 320 vectors, numbered from 0, whose words lie one behind the other in two lent arenas. The store goes in by
// value and comes back by value, inside the answer.
#![tactic(auto)]

ghost use Rattle.std.specs.Prelude.{◌≡◌, ◌<◌, IfOk};
ghost use Rattle.refusal.specs.Outcome.{outcome, answer};
ghost use Rattle.words.specs.Planes.{lent_by};
ghost use Rattle.cells.specs.Places.{fields_of};
ghost use Rattle.store.specs.Store.{state_by, empty_store, store_by, add_input};
ghost use Rattle.store.specs.Step.{memory_by, add_step};
ghost use Rattle.store.specs.Taken.{taken_answer, taken_store};

use cells::unchecked::cell_at;
use cells::{Cell, Fields, check_cells, no_fields};
use ops::Step;
use refusal::Refusal;
use unchecked::{take_input, take_step, with_cell};
use value::{Header, plain_header};

pub mod unchecked;

// The first `count` cells are filled.
#[derive(Clone, Copy)]
pub struct Store {
    pub cells: [Cell; 320],
    pub count: usize,
}

// An answer, and the store as the call leaves it.
#[derive(Clone, Copy)]
pub struct Stored {
    pub answer: Result<usize, Refusal>,
    pub store: Store,
}

impl Store {
    // An empty store.
    #[tactic(auto, unfolding(crate::specs::Store::empty_store))]
    pub fn new() -> Store
        ensures { result ≡ empty_store }
    {
        let c = Cell {
            start: 0,
            header: plain_header(0),
        };
        Store {
            cells: [c; 320],
            count: 0,
        }
    }

    // Adds a vector behind the last cell, its words copied into the arenas. Refused by 14, 12, then 1 to 4 for the vector, then 13.
    pub fn add_input(
        self,
        h: Header,
        value: &[u64],
        unknown: &[u64],
        av: &mut [u64],
        au: &mut [u64],
    ) -> Stored
        ensures { outcome (answer result.answer) (state_by result.store av.new au.new)
            ≡ add_input (state_by self av.old au.old) h (lent_by value.now unknown.now) }
    {
        let added = input_cell(&self, h, value, unknown, av, au);
        with_added(self, added)
    }

    // Adds the result of a step on the cells that it names, worked out in the scratch planes. Refused by 14, 12, 11, 7, then 13.
    pub fn add_step(
        self,
        step: Step,
        av: &mut [u64],
        au: &mut [u64],
        sv: &mut [u64],
        su: &mut [u64],
    ) -> Stored
        ensures { outcome (answer result.answer) (memory_by result.store av.new au.new sv.new su.new)
            ≡ add_step (memory_by self av.old au.old sv.old su.old) step }
    {
        let added = step_cell(&self, step, av, au, sv, su);
        with_added(self, added)
    }
}

// The cell of an input, whose words are copied behind those of the last cell.
fn input_cell(
    s: &Store,
    h: Header,
    value: &[u64],
    unknown: &[u64],
    av: &mut [u64],
    au: &mut [u64],
) -> Result<Cell, Refusal>
    ensures taken { outcome (taken_answer s.now.count result) (state_by (taken_store result s.now) av.new au.new)
        ≡ add_input (state_by s.now av.old au.old) h (lent_by value.now unknown.now) }
    ensures few { IfOk result (λ _. s.now.count < 320) }
{
    let next = check_cells(s.cells, s.count, av, au)?;
    let start = take_input(s.count, next, h, value, unknown, av, au)?;
    Ok(Cell { start, header: h })
}

// The cell of a step, whose words are copied behind those of the last cell.
fn step_cell(
    s: &Store,
    step: Step,
    av: &mut [u64],
    au: &mut [u64],
    sv: &mut [u64],
    su: &mut [u64],
) -> Result<Cell, Refusal>
    ensures taken { outcome (taken_answer s.now.count result) (memory_by (taken_store result s.now) av.new au.new sv.new su.new)
        ≡ add_step (memory_by s.now av.old au.old sv.old su.old) step }
    ensures few { IfOk result (λ _. s.now.count < 320) }
{
    let next = check_cells(s.cells, s.count, av, au)?;
    let f = fields_of(*s);
    take_step(
        step, s.count, next, &f.starts, &f.widths, &f.signs, &f.fills, av, au, sv, su,
    )
}

// The answer of a call that adds a cell, with the store that has the cell, or of one that is refused.
fn with_added(s: Store, added: Result<Cell, Refusal>) -> Stored
    requires { IfOk added (λ _. s.count < 320) }
    ensures answer { answer result.answer ≡ taken_answer s.count added }
    ensures store { result.store ≡ taken_store added s }
{
    match added {
        Err(r) => Stored {
            answer: Err(r),
            store: s,
        },
        Ok(c) => Stored {
            answer: Ok(s.count),
            store: with_cell(s, c),
        },
    }
}

// The store that four arrays say.
pub fn store_of<'a>(
    count: usize,
    starts: &'a [usize; 320],
    widths: &'a [u32; 320],
    signs: &'a [bool; 320],
    fills: &'a [bool; 320],
) -> Store
    ensures { result ≡ store_by count starts.now widths.now signs.now fills.now }
{
    let mut s = Store::new();
    for (i, c) in s.cells.iter_mut().enumerate() {
        *c = cell_at(i, starts, widths, signs, fills);
    }
    s.count = count;
    s
}

// The four arrays of a store.
pub fn fields_of(s: Store) -> Fields
    ensures { result ≡ fields_of s.cells }
{
    let mut f = no_fields();
    for (i, c) in s.cells.iter().enumerate() {
        let h = c.header;
        f.starts[i] = c.start;
        f.widths[i] = h.width;
        f.signs[i] = h.is_signed;
        f.fills[i] = h.is_fill;
    }
    f
}
