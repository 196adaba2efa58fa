// A step list loaded: its text read whole, and its inputs put into the first cells.
#![tactic(auto)]

ghost use Rattle.std.specs.Prelude.{◌≡◌, IfOk};
ghost use Rattle.refusal.specs.Outcome.{outcome};
ghost use Rattle.refusal.specs.Outcome.Answer.{given};
ghost use Rattle.words.specs.Planes.{lent_by};
ghost use Rattle.store.specs.Store.{state_by, store_of, empty_store};
ghost use Rattle.steplist.specs.Listing.{whole};
ghost use Rattle.steplist.specs.Answers.{list_in};
ghost use Rattle.load.specs.Inputs.{verdict, load_list};
ghost use Rattle.load.specs.Limits.{Fitted};

use cells::{Fields, no_fields};
use refusal::Refusal;
use steplist::{StepList, read_list};
use unchecked::load_inputs;

pub mod unchecked;

// The cells of the inputs that were accepted, how many there are, and the first word behind them.
#[derive(Clone, Copy)]
pub struct Inputs {
    pub fields: Fields,
    pub count: usize,
    pub next: usize,
}

// A list whose inputs are all accepted, or what refused the text or an input; and the cells of the inputs before that.
#[derive(Clone, Copy)]
pub struct Loaded {
    pub list: Result<StepList, Refusal>,
    pub inputs: Inputs,
}

// Reads the list that stands in `text`, and puts its inputs into the first cells, up to the first that is refused.
pub fn load_list(text: &[u8], av: &mut [u64], au: &mut [u64]) -> Loaded
    ensures au_value { outcome (verdict result.list)
        (state_by (store_of result.inputs.count result.inputs.fields) av.new au.new)
        ≡ load_list (state_by empty_store av.old au.old) (whole text.now) }
    ensures text_value { IfOk result.list (λ l. given (list_in text.now l) ≡ whole text.now) }
    ensures fitted { Fitted result.inputs.fields result.inputs.count result.inputs.next (lent_by av.new au.new) }
{
    match read_list(text) {
        Err(r) => Loaded {
            list: Err(r),
            inputs: Inputs {
                fields: no_fields(),
                count: 0,
                next: 0,
            },
        },
        Ok(list) => load_inputs(list, text, av, au),
    }
}
