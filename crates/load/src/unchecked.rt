// One input of a list, and all of them, put into the first cells. These ask their caller for a list that was read from the text.
ghost use Rattle.std.specs.Prelude.{◌≡◌, ◌≤◌, length, IfOk};
ghost use Rattle.refusal.specs.Outcome.{outcome, answer};
ghost use Rattle.words.specs.Planes.{lent_by, planes_of};
ghost use Rattle.store.specs.Store.{state_by, store_of, empty_store};
ghost use Rattle.store.specs.Taken.{take_input};
ghost use Rattle.steplist.specs.Answers.{input_in, list_in};
ghost use Rattle.load.specs.Inputs.{verdict, add_inputs};
ghost use Rattle.load.specs.Limits.{Fitted, InputReadable, InputsReadable};

use crate::{Inputs, Loaded};
use cells::no_fields;
use refusal::Refusal;
use steplist::{Input, StepList};
use store::unchecked::take_input;
use text::unchecked::fill_planes;
use words::word_count;

// Puts an input of the list behind `count` cells, its planes filled from its characters; they have at most 64 words.
fn load_input(
    x: Input,
    count: usize,
    next: usize,
    text: &[u8],
    av: &mut [u64],
    au: &mut [u64],
) -> Result<usize, Refusal>
    requires input_readable { InputReadable text.now x }
    requires next_in_bounds { (next ≤ length av.old) × (length av.old ≡ length au.old) }
    ensures { outcome (answer result) (lent_by av.new au.new)
        ≡ take_input count next x.header (planes_of (input_in text.now x).bits) (lent_by av.old au.old) }
{
    let h = x.header;
    let n = word_count(h.width);
    let mut value = [0u64; 64];
    let mut unknown = [0u64; 64];
    fill_planes(text, x.place, h.width, &mut value[0..n], &mut unknown[0..n]);
    take_input(count, next, h, &value[0..n], &unknown[0..n], av, au)
}

// Puts the inputs of the list into the first cells, up to the first that is refused.
pub fn load_inputs(list: StepList, text: &[u8], av: &mut [u64], au: &mut [u64]) -> Loaded
    requires { InputsReadable text.now list }
    ensures au_value { outcome (verdict result.list)
        (state_by (store_of result.inputs.count result.inputs.fields) av.new au.new)
        ≡ add_inputs (state_by empty_store av.old au.old) (list_in text.now list).inputs }
    ensures same_list { IfOk result.list (λ l. l ≡ list) }
    ensures fitted { Fitted result.inputs.fields result.inputs.count result.inputs.next (lent_by av.new au.new) }
{
    let mut f = no_fields();
    let mut next = 0;
    if (0 < list.input_count) & (av.len() != au.len()) {
        return Loaded {
            list: Err(Refusal::BadStore),
            inputs: Inputs {
                fields: f,
                count: 0,
                next,
            },
        };
    }
    for i in 0..list.input_count {
        let x = list.inputs[i];
        match load_input(x, i, next, text, av, au) {
            Err(r) => {
                return Loaded {
                    list: Err(r),
                    inputs: Inputs {
                        fields: f,
                        count: i,
                        next,
                    },
                };
            }
            Ok(at) => {
                let h = x.header;
                f.starts[i] = at;
                f.widths[i] = h.width;
                f.signs[i] = h.is_signed;
                f.fills[i] = h.is_fill;
                next = at + word_count(h.width);
            }
        }
    }
    Loaded {
        list: Ok(list),
        inputs: Inputs {
            fields: f,
            count: list.input_count,
            next,
        },
    }
}
