// A cell by its place, its words and their check, and words put behind the last cell. These ask their caller for what a check has found.
ghost use Rattle.std.specs.Prelude.{◌≡◌, ◌≤◌, ◌<◌, ◌+◌, length, take};
ghost use Rattle.words.specs.Planes.{lent, lent_by};
ghost use Rattle.cells.specs.Places.{fields_by, header_of, cell_of};
ghost use Rattle.cells.specs.Cells.{cell_words, span, cell_agrees, put_planes};

use crate::Cell;
use value::{Header, check_vector};
use words::unchecked::copy_front;
use words::word_count;

// The header of the cell at place i.
pub fn header_at<'a>(
    i: usize,
    widths: &'a [u32; 320],
    signs: &'a [bool; 320],
    fills: &'a [bool; 320],
) -> Header
    requires { i < 320 }
    ensures { result ≡ header_of widths.now signs.now fills.now i }
{
    Header {
        width: widths[i],
        is_signed: signs[i],
        is_fill: fills[i],
    }
}

// The cell at place i.
pub fn cell_at<'a>(
    i: usize,
    starts: &'a [usize; 320],
    widths: &'a [u32; 320],
    signs: &'a [bool; 320],
    fills: &'a [bool; 320],
) -> Cell
    requires { i < 320 }
    ensures { result ≡ cell_of (fields_by starts.now widths.now signs.now fills.now) i }
{
    Cell {
        start: starts[i],
        header: header_at(i, widths, signs, fills),
    }
}

// A cell's words in an arena.
pub fn cell_words(c: Cell, arena: &[u64]) -> &[u64]
    requires { c.start + cell_words c ≤ length arena.now }
    ensures { result.now ≡ span c arena.now }
{
    let start = c.start;
    let h = c.header;
    let end = start + word_count(h.width);
    &arena[start..end]
}

// Whether a cell's span begins at word `at` and lies within the arenas, and the cell breaks none of 1, 3 and 4.
#[tactic(auto, unfolding(crate::specs::Cells::cell_agrees))]
pub fn cell_agrees(c: Cell, at: usize, value: &[u64], unknown: &[u64]) -> bool
    requires { (at ≤ length value.now) × (length value.now ≡ length unknown.now) }
    ensures { result ≡ cell_agrees (lent_by value.now unknown.now) at c }
{
    let h = c.header;
    if (c.start != at) | (value.len() - at < word_count(h.width)) {
        return false;
    }
    let v = cell_words(c, value);
    let u = cell_words(c, unknown);
    check_vector(h, v, u).is_ok()
}

// Copies the first n words of two planes into the arenas, from word `at` on: the end part of each arena is lent to the copying function.
pub fn copy_behind(
    at: usize,
    n: usize,
    value: &[u64],
    unknown: &[u64],
    av: &mut [u64],
    au: &mut [u64],
)
    requires n_in_bounds { (n ≤ length value.now) × (n ≤ length unknown.now) }
    requires n_in_bounds_2 { (at + n ≤ length av.old) × (at + n ≤ length au.old) }
    ensures { lent_by av.new au.new
        ≡ put_planes at (lent (take n value.now) (take n unknown.now)) (lent_by av.old au.old) }
{
    copy_front(&mut av[at..], value, n);
    copy_front(&mut au[at..], unknown, n);
}
