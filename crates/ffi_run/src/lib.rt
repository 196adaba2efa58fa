// The run of a step list for C and Rust, as numbers, slices and arrays: the store that it leaves crosses as its number of cells and four
// arrays of 320 places. The export asks nothing of its caller.
#![tactic(auto)]

ghost use Rattle.std.specs.Prelude.{◌≡◌};
ghost use Rattle.words.specs.Planes.{lent_by};
ghost use Rattle.lines.specs.Buffer.{buffer};
ghost use Rattle.steps.specs.Run.{ending_of, run_text, final_of};
ghost use Rattle.cells.specs.Places.{fields_by};
ghost use Rattle.store_abi.specs.Settled.{settled, crossed};
ghost use Rattle.ffi_run.specs.Crossing.{run_result, saved_fields, crossed_run};

use refusal::Refusal;
use steps::RunAnswer;
use store_abi::save;

// Writes the four arrays of the store that a run leaves; a list that was refused whole leaves them as they were.
fn save_run(
    r: RunAnswer,
    starts: &mut [usize; 320],
    widths: &mut [u32; 320],
    signs: &mut [bool; 320],
    fills: &mut [bool; 320],
)
    ensures { fields_by starts.new widths.new signs.new fills.new
        ≡ saved_fields (ending_of r.ending) r.store (fields_by starts.old widths.old signs.old fills.old) }
{
    let e = r.ending;
    if e.is_err_and(|stop| stop.refusal == Refusal::BadFormat) {
        return;
    }
    save(r.store, starts, widths, signs, fills);
}

// The cells in the store after a run, the bytes that it wrote at the front of the buffer, and how it ended: `refusal` is 0 where every step
// was run, and then `step` is how many; else it is the refusal's number, and `step` its step, 0 for the text or an input.
#[repr(C)]
#[derive(Clone, Copy)]
pub struct RunResult {
    pub count: usize,
    pub length: usize,
    pub refusal: u8,
    pub step: u32,
}

impl From<RunAnswer> for RunResult {
    ghost from_gives = { λ r n. n ≡ run_result r.store r.length (ending_of r.ending) };

    fn from(r: RunAnswer) -> RunResult {
        let (refusal, step) = match r.ending {
            Ok(steps) => (0, steps),
            Err(stop) => (u8::from(stop.refusal), stop.step),
        };
        RunResult {
            count: r.store.count,
            length: r.length,
            refusal,
            step,
        }
    }
}

// `steps::run` from an empty store; the four arrays get the store that it leaves, unless the text is no step list
#[unsafe(no_mangle)]
pub extern "C" fn vowherunga_run(
    text: &[u8],
    arena_value: &mut [u64],
    arena_unknown: &mut [u64],
    scratch_value: &mut [u64],
    scratch_unknown: &mut [u64],
    starts: &mut [usize; 320],
    widths: &mut [u32; 320],
    signs: &mut [bool; 320],
    fills: &mut [bool; 320],
    out: &mut [u8; 1052436],
) -> RunResult
    ensures { crossed (settled result (fields_by starts.new widths.new signs.new fills.new)) (
      lent_by arena_value.new arena_unknown.new,
      lent_by scratch_value.new scratch_unknown.new,
      out.new,
    )
        ≡ crossed_run (fields_by starts.old widths.old signs.old fills.old)
        (final_of
        (run_text
        (lent_by arena_value.old arena_unknown.old)
        (lent_by scratch_value.old scratch_unknown.old)
        text.now)
        (buffer out.old 0)) }
{
    let r = steps::run(
        text,
        arena_value,
        arena_unknown,
        scratch_value,
        scratch_unknown,
        out,
    );
    save_run(r, starts, widths, signs, fills);
    RunResult::from(r)
}
