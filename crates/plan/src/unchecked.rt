// The checks of an input and of a step behind `count` cells that take the first `next` words of the arenas.
ghost use Rattle.std.specs.Prelude.{◌≡◌, ◌≤◌};
ghost use Rattle.refusal.specs.Outcome.{after, answer};
ghost use Rattle.refusal.specs.Outcome.Answer.{given};
ghost use Rattle.machine.specs.Machine.{words_taken, check_count, check_input_behind, check_step};
ghost use Rattle.cells.specs.Places.{headers_by};
ghost use Rattle.plan.specs.Planned.{named, planned};

use crate::PlannedStep;
use cells::unchecked::header_at;
use machine::Room;
use ops::{Step, arms_refused, operand_count, result_header};
use refusal::Refusal;
use words::word_count;

// The step, where the number of its first operand stands for each operand that its op does not use.
fn named(step: Step) -> Step
    ensures { result ≡ named step }
{
    let op = step.op;
    let n = operand_count(op);
    if n < 2 {
        Step {
            op: op,
            a: step.a,
            b: step.a,
            c: step.a,
        }
    } else if n < 3 {
        Step {
            op: op,
            a: step.a,
            b: step.b,
            c: step.a,
        }
    } else {
        step
    }
}

// Whether there is a place behind `count` cells, or 12.
fn check_count(count: usize) -> Result<(), Refusal>
    ensures { answer result ≡ check_count count }
{
    if 320 <= count {
        return Err(Refusal::StoreFull);
    }
    Ok(())
}

// Where an input's cell begins, or its refusal: 12, what the check of its vector says, then 13.
pub fn plan_input(
    count: usize,
    next: usize,
    width: u32,
    checked: Result<(), Refusal>,
    room: Room,
) -> Result<usize, Refusal>
    requires { next ≤ room.arena }
    ensures { answer result
        ≡ after (check_input_behind room count next (answer checked) width) (given next) }
{
    check_count(count)?;
    checked?;
    if room.arena - next < word_count(width) {
        return Err(Refusal::NoRoom);
    }
    Ok(next)
}

// The planned step, or its refusal: 12, 11, 7, then 13.
pub fn plan_step<'a>(
    step: Step,
    count: usize,
    next: usize,
    widths: &'a [u32; 320],
    signs: &'a [bool; 320],
    fills: &'a [bool; 320],
    room: Room,
) -> Result<PlannedStep, Refusal>
    requires { (count ≤ 320) × (next ≡ words_taken (headers_by count widths.now signs.now fills.now)) × (next ≤ room.arena) }
    ensures { answer result
        ≡ after (check_step room (headers_by count widths.now signs.now fills.now) step)
        (given (planned (headers_by count widths.now signs.now fills.now) step)) }
{
    check_count(count)?;
    let t = named(step);
    let a = t.a as usize;
    let b = t.b as usize;
    let c = t.c as usize;
    if count <= a || count <= b || count <= c {
        return Err(Refusal::NoSuchCell);
    }
    let x = header_at(a, widths, signs, fills);
    let y = header_at(b, widths, signs, fills);
    let z = header_at(c, widths, signs, fills);
    let op = step.op;
    if arms_refused(op, y, z) {
        return Err(Refusal::BadArms);
    }
    let h = result_header(op, x, y, z);
    let w = word_count(h.width);
    if room.arena - next < w || room.scratch < w {
        return Err(Refusal::NoRoom);
    }
    Ok(PlannedStep {
        op: op,
        a: a,
        b: b,
        c: c,
        pos: step.c as usize,
        start: next,
        header: h,
    })
}
