// The whole case of document 01 through `fourstate`: as a text that is run, and as inputs and steps on a store that the caller keeps. What
// a run writes is compared by the cases of `cones`.
#![tactic(auto)]

use fourstate::cellstore::Store;
use fourstate::steplists::{Op, Step, run};
use fourstate::vectors::Header;
use std::io;

// Whether the arenas hold the inputs 1x and 01, their and 0x, and x, the or-reduction of that, a word each.
fn hold_case(av: [u64; 4], au: [u64; 4]) -> bool {
    av == [2, 1, 0, 0] && au == [1, 0, 1, 1]
}

// Whether the text's run ends with its two steps run.
fn run_agrees() -> bool {
    let mut av = [0u64; 4];
    let mut au = [0u64; 4];
    let mut sv = [0u64; 1];
    let mut su = [0u64; 1];
    let mut out = [0u8; 1052436];
    let r = run(
        b"inputs=2\nsteps=2\nwidth=2\nkind=u\nbits=1x\nwidth=2\nkind=u\nbits=01\n\
        op=and\na=0\nb=1\nc=0\nop=ror\na=2\nb=0\nc=0\n",
        &mut av,
        &mut au,
        &mut sv,
        &mut su,
        &mut out,
    );
    matches!(r.ending, Ok(2)) && hold_case(av, au)
}

// Whether the last step on the store adds cell 3.
fn store_agrees() -> bool {
    let mut av = [0u64; 4];
    let mut au = [0u64; 4];
    let mut sv = [0u64; 1];
    let mut su = [0u64; 1];
    let h = Header {
        width: 2,
        is_signed: false,
        is_fill: false,
    };
    let and = Step {
        op: Op::And,
        a: 0,
        b: 1,
        c: 0,
    };
    let or = Step {
        op: Op::ReduceOr,
        a: 2,
        b: 0,
        c: 0,
    };
    let empty = Store::new();
    let a = empty.add_input(h, &[2], &[1], &mut av, &mut au);
    let b = a.store.add_input(h, &[1], &[0], &mut av, &mut au);
    let c = b.store.add_step(and, &mut av, &mut au, &mut sv, &mut su);
    let d = c.store.add_step(or, &mut av, &mut au, &mut sv, &mut su);
    d.answer == Ok(3) && hold_case(av, au)
}

// Writes whether a case agrees.
fn report(rt: &impl Print, name: &str, agrees: bool) -> io::Result<()> {
    if agrees {
        println!(rt; "{name} agrees")
    } else {
        println!(rt; "{name} differs")
    }
}

fn main(rt: HostRuntime) -> io::Result<()> {
    report(&rt, "run", run_agrees())?;
    report(&rt, "store", store_agrees())
}
