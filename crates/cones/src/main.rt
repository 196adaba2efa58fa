// Runs the step list on standard input and writes what the run says. Where standard input cannot be read to its end, nothing is run and
// standard output stays empty; where standard output does not take all that is written, the rest is lost. A line on standard error tells
// either.
#![tactic(auto)]

ghost use Rattle.std.specs.Prelude.{◌≡◌, ◌≤◌, length, take, IfSome, OnOk, IsErrOf};
ghost use Rattle.std.specs.Io.KnownBytes.{Appends};
ghost use Rattle.cones.specs.Program.{written};

use std::io;
use std::io::{Read, Write};
use stdin::read_all;

// Which stream failed.
#[derive(Clone, Copy)]
pub enum Failure {
    Input,
    Output,
}

// Zeros, one more than a list may have bytes.
fn room() -> [u8; 65537]
    ensures { 65537 ≡ length result }
{
    [0; 65537]
}

// Runs a list, and tells how many bytes at the front of the buffer say what the run says.
fn told(list: &[u8], out: &mut [u8; 1052436]) -> usize
    ensures within { result ≤ length out.new }
    ensures text { take result out.new ≡ written list.now }
{
    let mut arena_value = [0u64; 2048];
    let mut arena_unknown = [0u64; 2048];
    let mut scratch_value = [0u64; 2048];
    let mut scratch_unknown = [0u64; 2048];
    let r = steps::run(
        list,
        &mut arena_value,
        &mut arena_unknown,
        &mut scratch_value,
        &mut scratch_unknown,
        out,
    );
    r.length
}

// Runs the list that an input holds, and writes what the run says behind what the output holds.
pub fn answer<R: Read, W: Write>(input: &mut R, output: &mut W) -> Result<(), Failure>
    ensures wrote { OnOk result (IfSome (R.remaining input.old) (λ t.
        Appends (W.contents output.old) (W.contents output.new) (written t))) }
    ensures unread { IsErrOf result Failure.Input → output.new ≡ output.old }
{
    let mut text = room();
    let Ok(n) = read_all(input, &mut text) else {
        return Err(Failure::Input);
    };
    let mut out = [0u8; 1052436];
    let length = told(&text[..n], &mut out);
    let Ok(()) = output.write_all(&out[..length]) else {
        return Err(Failure::Output);
    };
    Ok(())
}

fn main(rt: HostRuntime) -> io::Result<()> {
    match answer(&mut rt.stdin(), &mut rt.stdout()) {
        Ok(()) => Ok(()),
        Err(Failure::Input) => eprintln!(rt; "cones: standard input cannot be read"),
        Err(Failure::Output) => eprintln!(rt; "cones: standard output cannot be written"),
    }
}
