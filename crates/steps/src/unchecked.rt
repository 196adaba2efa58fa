// One pass over the steps of a list. This asks its caller for cells of inputs that agree with the arenas and for room in the buffer.
ghost use Rattle.std.specs.Prelude.{◌≡◌, ◌≤◌, ◌<◌, length};
ghost use Rattle.words.specs.Planes.{lent_by};
ghost use Rattle.lines.specs.Buffer.{buffer};
ghost use Rattle.store.specs.Store.{store_of};
ghost use Rattle.store.specs.Step.{memory_by};
ghost use Rattle.steplist.specs.Answers.{steps_in};
ghost use Rattle.load.specs.Limits.{Fitted};
ghost use Rattle.steps.specs.Run.{run_steps, final_of, pass_by};

use crate::{Pass, Stop};
use load::Inputs;
use refusal::Refusal;
use run_lines::unchecked::{put_done, put_refused, put_step};
use steplist::StepList;
use store::unchecked::take_step;
use words::word_count;

// Runs the steps of the list behind the cells of its inputs, up to the first that is refused, and writes their lines. In arenas of two
// lengths the first step is refused by 14; in others the cells agree with the arenas from step to step, and none is checked again.
pub fn run_steps(
    list: StepList,
    inputs: Inputs,
    av: &mut [u64],
    au: &mut [u64],
    sv: &mut [u64],
    su: &mut [u64],
    out: &mut [u8],
) -> Pass
    requires step_count_bound { (list.step_count ≤ 256) × (1052436 ≤ length out.old) }
    requires fitted { Fitted inputs.fields inputs.count inputs.next (lent_by av.old au.old) }
    ensures { pass_by result av.new au.new sv.new su.new out.new
        ≡ final_of
        (run_steps
        (memory_by (store_of inputs.count inputs.fields) av.old au.old sv.old su.old)
        0
        (steps_in list.step_count list.steps))
        (buffer out.old 0) }
{
    let mut f = inputs.fields;
    let mut n = inputs.count;
    let mut next = inputs.next;
    if (0 < list.step_count) & (av.len() != au.len()) {
        return Pass {
            fields: f,
            count: n,
            length: put_refused(out, 0, u32::from(u8::from(Refusal::BadStore)), 1),
            ending: Err(Stop {
                refusal: Refusal::BadStore,
                step: 1,
            }),
        };
    }
    let mut at = 0;
    for k in 0..list.step_count {
        let step = list.steps[k];
        match take_step(
            step, n, next, &f.starts, &f.widths, &f.signs, &f.fills, av, au, sv, su,
        ) {
            Err(refusal) => {
                let number = k as u32 + 1;
                return Pass {
                    fields: f,
                    count: n,
                    length: put_refused(out, at, u32::from(u8::from(refusal)), number),
                    ending: Err(Stop {
                        refusal,
                        step: number,
                    }),
                };
            }
            Ok(c) => {
                let h = c.header;
                at = put_step(out, at, n as u32, h, sv, su);
                f.starts[n] = c.start;
                f.widths[n] = h.width;
                f.signs[n] = h.is_signed;
                f.fills[n] = h.is_fill;
                next = c.start + word_count(h.width);
                n += 1;
            }
        }
    }
    let done = list.step_count as u32;
    Pass {
        fields: f,
        count: n,
        length: put_done(out, at, done),
        ending: Ok(done),
    }
}
