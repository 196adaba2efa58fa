// The lines of a run, each written from a place of the buffer on; they give the place behind what they wrote and ask their caller for room.
ghost use Rattle.std.specs.Prelude.{◌≡◌, ◌+◌, ◌≤◌, ◌<◌, length};
ghost use Rattle.words.specs.Planes.{word_count, lent_by};
ghost use Rattle.lines.specs.Buffer.{buffer, put};
ghost use Rattle.run_lines.specs.Output.{front_bits, cell_text, done_text, refused_text};

use lines::unchecked::{put_bits_line, put_number_line};
use value::Header;
use words::word_count;

// The two lines of a step: the number of the cell that it added, and the cell's bits, which the planes begin with.
pub fn put_step(
    out: &mut [u8],
    at: usize,
    n: u32,
    h: Header,
    value: &[u64],
    unknown: &[u64],
) -> usize
    requires n_bound { (n < 1000) × (at + 15 + h.width ≤ length out.old) }
    requires width_in_bounds { (word_count h.width ≤ length value.now) × (word_count h.width ≤ length unknown.now) }
    ensures { buffer out.new result
        ≡ put (buffer out.old at) (cell_text n (front_bits h.width (lent_by value.now unknown.now))) }
{
    let i = put_number_line(out, at, b"cell=", n);
    let k = word_count(h.width);
    put_bits_line(out, i, b"bits=", h.width, &value[..k], &unknown[..k])
}

// The line behind the last step: how many were run.
#[tactic(auto, using(crate::proofs::Room::done_room), unfolding(crate::specs::Output::done_text))]
pub fn put_done(out: &mut [u8], at: usize, k: u32) -> usize
    requires { (k < 1000) × (at + 9 ≤ length out.old) }
    ensures { buffer out.new result ≡ put (buffer out.old at) (done_text k) }
{
    put_number_line(out, at, b"done=", k)
}

// The two lines of a refusal: its number and its step.
pub fn put_refused(out: &mut [u8], at: usize, n: u32, k: u32) -> usize
    requires { (n < 100) × (k < 1000) × (at + 20 ≤ length out.old) }
    ensures { buffer out.new result ≡ put (buffer out.old at) (refused_text n k) }
{
    let i = put_number_line(out, at, b"refused=", n);
    put_number_line(out, i, b"step=", k)
}
