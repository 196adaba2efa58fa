// A step list, run: its text is loaded, its steps are planned and executed one after the other, and the lines that it writes stand in a
// buffer.
#![tactic(auto)]

ghost use Rattle.std.specs.Prelude.{◌≡◌};
ghost use Rattle.words.specs.Planes.{lent_by};
ghost use Rattle.lines.specs.Buffer.{buffer};
ghost use Rattle.steps.specs.Run.{run_text, final_of, final_by};

use cells::Fields;
use load::load_list;
use refusal::Refusal;
use run_lines::unchecked::put_refused;
use store::{Store, store_of};
use unchecked::run_steps;

pub mod unchecked;

// What stopped a run: the refusal, and the step that was refused, counted from 1; 0 is the text or an input.
#[derive(Clone, Copy)]
pub struct Stop {
    pub refusal: Refusal,
    pub step: u32,
}

// What a pass over steps leaves: the four arrays of the cells, how many are filled, how many bytes were written at the front of the
// buffer, and how it ended: how many steps were run, which are all of them, or what stopped it.
#[derive(Clone, Copy)]
pub struct Pass {
    pub fields: Fields,
    pub count: usize,
    pub length: usize,
    pub ending: Result<u32, Stop>,
}

// The store that a run leaves, how many bytes it wrote at the front of the buffer, and how it ended, as in a pass.
#[derive(Clone, Copy)]
pub struct RunAnswer {
    pub store: Store,
    pub length: usize,
    pub ending: Result<u32, Stop>,
}

// Runs the step list that stands in `text`, from an empty store. The buffer has room for the lines of 256 steps of 4,096 bits and of a
// refusal.
pub fn run(
    text: &[u8],
    av: &mut [u64],
    au: &mut [u64],
    sv: &mut [u64],
    su: &mut [u64],
    out: &mut [u8; 1052436],
) -> RunAnswer
    ensures { final_by result av.new au.new sv.new su.new out.new
        ≡ final_of
        (run_text
        (lent_by av.old au.old)
        (lent_by sv.old su.old)
        text.now)
        (buffer out.old 0) }
{
    let l = load_list(text, av, au);
    match l.list {
        Err(refusal) => {
            let f = l.inputs.fields;
            RunAnswer {
                store: store_of(l.inputs.count, &f.starts, &f.widths, &f.signs, &f.fills),
                length: put_refused(out, 0, u32::from(u8::from(refusal)), 0),
                ending: Err(Stop { refusal, step: 0 }),
            }
        }
        Ok(list) => {
            let p = run_steps(list, l.inputs, av, au, sv, su, out);
            let f = p.fields;
            RunAnswer {
                store: store_of(p.count, &f.starts, &f.widths, &f.signs, &f.fills),
                length: p.length,
                ending: p.ending,
            }
        }
    }
}
