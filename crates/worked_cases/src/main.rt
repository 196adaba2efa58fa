// Calls of the entries through `fourstate`, each compared with its answer; the crate `replay` tells how a table is written. The tables in
// `worked` have cases of the documents and of each edge; each call that agrees is written, and the file `stdout` holds them. The tables in
// `answers` have the reference's answers to drawn inputs, of which those that agree are counted. A line that ends in the word `standard`
// has operands that document 02, point 2, touches, and the standard's answer. At the repository's root
//
//     cargo run --offline --manifest-path rust/Cargo.toml --features reference --bin answers bits >crates/worked_cases/data/answers/bits
//
// makes the first of these, and so the others: constructors, vectors, answer_bits. Decisions and arms have none: the reference tells no
// rule and hands back no arm.
#![tactic(auto)]

ghost use Rattle.std.specs.Prelude.{◌≤◌, length, IfOk};

mod answer_bits;
mod arms;
mod decisions;
mod lent_bits;
mod new_vectors;
mod vectors;

use agreement::Field;
use replay::unchecked::{call_of, field, line_end, report, table, total};
use std::fs::File;
use std::io;
use std::io::Write;
use std::rt::Files;

// Whether a call, by its number in `replay`, has the line's answer; its first operand is lent.
fn has_answer(call: usize, line: &[u8], a: Field, value: &mut [u64], unknown: &mut [u64]) -> bool {
    match call {
        0..=1 => lent_bits::reads(call, line, a.header, value, unknown),
        2..=5 => lent_bits::writes(call, line, a.header, value, unknown),
        6..=9 => new_vectors::makes(call, line, a.header, value, unknown),
        10..=20 => answer_bits::answers(call, line, a, value, unknown),
        21..=25 => vectors::results(call, line, a.header, value, unknown),
        26..=27 => decisions::decides(call, line, a, value, unknown),
        28 => arms::chooses(line, value, unknown),
        _ => false,
    }
}

// Whether the call of a line has the line's answer.
fn agrees(line: &[u8]) -> bool {
    let mut value = [0u64; 16385];
    let mut unknown = [0u64; 16385];
    let a = field(line, 3, &mut value, &mut unknown);
    let m = a.value;
    let n = a.unknown;
    match call_of(line) {
        Some(call) => has_answer(call, line, a, &mut value[0..m], &mut unknown[0..n]),
        None => false,
    }
}

// Works the lines, and counts those that agree.
fn count<W: Write>(s: &[u8], show: bool, out: &mut W) -> io::Result<u64> {
    let mut agreed = 0;
    let mut at = 0;
    // A `while`: each turn goes on by a line.
    while at < s.len() {
        let e = line_end(s, at);
        let line = &s[at..e];
        if report(line, agrees(line), show, out)? {
            agreed += 1;
        }
        if e == s.len() {
            return Ok(agreed);
        }
        at = e + 1;
    }
    Ok(agreed)
}

// The table in a file of that name: how many bytes it has. Where the file cannot be opened, a line on standard error tells, and it has none.
fn read(rt: &(impl Files + Print + Eprint), path: &str, s: &mut [u8]) -> io::Result<usize>
    ensures { IfOk result (λ n. n ≤ length s.new) }
{
    match File::open(rt, path) {
        Ok(mut file) => table(&mut file, s, &mut io::writer(rt)),
        Err(e) => {
            eprintln!(rt; "{path}: {e}")?;
            Ok(0)
        }
    }
}

// Works a table and writes how many of its lines agree; gives whether any does.
fn work(rt: &(impl Files + Print + Eprint), path: &str, show: bool) -> io::Result<bool> {
    let mut s = [0u8; 65536];
    let n = read(rt, path, &mut s)?;
    let mut out = io::writer(rt);
    let agreed = count(&s[0..n], show, &mut out)?;
    total(path.as_bytes(), agreed, &mut out)
}

// Works the cases, and then the reference's answers: where no case agrees, nothing can be told of these.
fn work_both(rt: &(impl Files + Print + Eprint), worked: &str, answers: &str) -> io::Result<()> {
    if work(rt, worked, true)? {
        work(rt, answers, false)?;
    }
    Ok(())
}

fn main(rt: HostRuntime) -> io::Result<()> {
    work_both(&rt, "worked/bits", "answers/bits")?;
    work_both(&rt, "worked/constructors", "answers/constructors")?;
    work_both(&rt, "worked/vectors", "answers/vectors")?;
    work_both(&rt, "worked/answer_bits", "answers/answer_bits")?;
    work(&rt, "worked/decisions", true)?;
    work(&rt, "worked/arms", true)?;
    Ok(())
}
