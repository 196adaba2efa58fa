// A step list, read whole and strictly: the inputs with the places of their bits in the text, and the steps.
#![tactic(auto)]

ghost use Rattle.std.specs.Prelude.{◌≡◌, ◌≤◌, drop};
ghost use Rattle.std.specs.Result.{result_map_both};
ghost use Rattle.refusal.specs.Outcome.{answer};
ghost use Rattle.text.specs.Read.{many};
ghost use Rattle.steplist.specs.OpLine.{op_line, largest as largest_of};
ghost use Rattle.steplist.specs.Listing.{input, step, list, whole};
ghost use Rattle.steplist.specs.Answers.{got, input_in, inputs_in, steps_in, list_in};

use ops::unchecked::op_at;
use ops::{Op, Step, number_count};
use refusal::Refusal;
use text::unchecked::one_of;
use value::Header;

// An input: its header, and the place in the text where its bits stand, highest first.
#[derive(Clone, Copy)]
pub struct Input {
    pub header: Header,
    pub place: usize,
}

// The first `input_count` inputs and the first `step_count` steps are those of the list.
#[derive(Clone, Copy)]
pub struct StepList {
    pub inputs: [Input; 64],
    pub input_count: usize,
    pub steps: [Step; 256],
    pub step_count: usize,
}

// A value that stands in the text, and the place behind its lines.
#[derive(Clone, Copy)]
struct Found<T> {
    value: T,
    next: usize,
}

const NO_INPUT: Input = Input {
    header: Header {
        width: 0,
        is_signed: false,
        is_fill: false,
    },
    place: 0,
};

const NO_STEP: Step = Step {
    op: Op::And,
    a: 0,
    b: 0,
    c: 0,
};

// The three lines of an input.
fn read_input(s: &[u8], at: usize) -> Option<Found<Input>>
    ensures { got (input_in s.now) s.now result ≡ input (drop at s.now) }
{
    let width = text::number_line(s, at, b"width=", 4096)?;
    let kind = one_of(s, width.next, b"kind=u\nkind=s\nkind=f\n")?;
    let next = text::bits_line(s, kind.next, b"bits=", width.number)?;
    let header = Header {
        width: width.number,
        is_signed: kind.number == 1,
        is_fill: kind.number == 2,
    };
    let place = kind.next + 5;
    Some(Found {
        value: Input { header, place },
        next,
    })
}

// n inputs.
fn read_inputs(s: &[u8], at: usize, n: usize) -> Option<Found<[Input; 64]>>
    requires { n ≤ 64 }
    ensures { got (inputs_in s.now n) s.now result
        ≡ many input n (drop at s.now) }
{
    let mut inputs = [NO_INPUT; 64];
    let mut next = at;
    for k in 0..n {
        let x = read_input(s, next)?;
        inputs[k] = x.value;
        next = x.next;
    }
    Some(Found {
        value: inputs,
        next,
    })
}

// The line op=: the op that has the name.
fn op_line(s: &[u8], at: usize) -> Option<Found<Op>>
    ensures { got (λ o. o) s.now result ≡ op_line (drop at s.now) }
{
    let line = one_of(
        s,
        at,
        b"op=and\nop=or\nop=xor\nop=not\nop=mrg\nop=rand\nop=ror\nop=rxor\n\
        op=eq\nop=ceq\nop=cz\nop=cx\nop=weq\nop=land\nop=lor\nop=sel\nop=ins\n",
    )?;
    Some(Found {
        value: op_at(line.number as usize),
        next: line.next,
    })
}

// The largest number that the i-th of a, b and c may be, from 0: an unused one is 0.
fn largest(op: Op, i: usize) -> u32
    ensures { result ≡ largest_of op i }
{
    if i < number_count(op) { u32::MAX } else { 0 }
}

// The four lines of a step.
fn read_step(s: &[u8], at: usize) -> Option<Found<Step>>
    ensures { got (λ x. x) s.now result ≡ step (drop at s.now) }
{
    let line = op_line(s, at)?;
    let op = line.value;
    let a = text::number_line(s, line.next, b"a=", largest(op, 0))?;
    let b = text::number_line(s, a.next, b"b=", largest(op, 1))?;
    let c = text::number_line(s, b.next, b"c=", largest(op, 2))?;
    Some(Found {
        value: Step {
            op,
            a: a.number,
            b: b.number,
            c: c.number,
        },
        next: c.next,
    })
}

// n steps. This stands beside read_inputs, since a reader of both would take an array of a type parameter.
fn read_steps(s: &[u8], at: usize, n: usize) -> Option<Found<[Step; 256]>>
    requires { n ≤ 256 }
    ensures { got (steps_in n) s.now result ≡ many step n (drop at s.now) }
{
    let mut steps = [NO_STEP; 256];
    let mut next = at;
    for k in 0..n {
        let x = read_step(s, next)?;
        steps[k] = x.value;
        next = x.next;
    }
    Some(Found { value: steps, next })
}

// The lines of a list.
fn read_lines(s: &[u8]) -> Option<Found<StepList>>
    ensures { got (list_in s.now) s.now result ≡ list s.now }
{
    let n = text::number_line(s, 0, b"inputs=", 64)?;
    let m = text::number_line(s, n.next, b"steps=", 256)?;
    let input_count = n.number as usize;
    let step_count = m.number as usize;
    let Found { value, next } = read_inputs(s, m.next, input_count)?;
    let inputs = value;
    let Found { value, next } = read_steps(s, next, step_count)?;
    let steps = value;
    let list = StepList {
        inputs,
        input_count,
        steps,
        step_count,
    };
    Some(Found { value: list, next })
}

// The list that a text says, or 6 if the text breaks its format or has more than 65,536 bytes.
#[tactic(auto, using(crate::proofs::Whole::listed, crate::proofs::Whole::text_follows, crate::proofs::Whole::too_long, crate::proofs::Whole::no_list))]
pub fn read_list(s: &[u8]) -> Result<StepList, Refusal>
    ensures { answer (result_map_both (list_in s.now) (λ r. r) result)
        ≡ whole s.now }
{
    match read_lines(s) {
        Some(list) if s.len() <= list.next && s.len() <= 65536 => Ok(list.value),
        _ => Err(Refusal::BadFormat),
    }
}
