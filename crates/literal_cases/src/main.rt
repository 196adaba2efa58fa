// Sized literals through `fourstate`: each is read and written again, which is in binary; and texts that are no literals.
#![tactic(auto)]

use fourstate::bitplanes::word_count;
use fourstate::literal::{literal_header, literal_length, read_literal, write_literal};
use fourstate::vectors::Refusal;
use std::io;

// Whether a literal is read into these planes, and written into this text as that one; or which refusal comes.
fn goes_round(
    text: &[u8],
    binary: &[u8],
    value: &mut [u64],
    unknown: &mut [u64],
    out: &mut [u8],
) -> Result<bool, Refusal> {
    let h = read_literal(text, value, unknown)?;
    write_literal(h, value, unknown, out)?;
    Ok(*out == *binary)
}

// Whether a literal of at most 128 bits is read and written again as that one, in planes and a text of the lengths that are told; or which
// refusal comes.
fn agrees(text: &[u8], binary: &[u8]) -> Result<bool, Refusal> {
    let mut value = [0u64; 2];
    let mut unknown = [0u64; 2];
    let mut out = [0u8; 134];
    let h = literal_header(text)?;
    let n = literal_length(h)?;
    let words = word_count(h.width);
    if 2 < words || 134 < n {
        return Ok(false);
    }
    goes_round(
        text,
        binary,
        &mut value[0..words],
        &mut unknown[0..words],
        &mut out[0..n],
    )
}

// Whether a text is refused by 15, and leaves the planes.
fn is_refused(text: &[u8]) -> bool {
    let mut value = [7u64; 1];
    let mut unknown = [9u64; 1];
    match read_literal(text, &mut value, &mut unknown) {
        Ok(_) => false,
        Err(r) => u8::from(r) == 15 && value == [7] && unknown == [9],
    }
}

// Writes whether a literal is read and written again as that one.
fn case(rt: &impl Print, text: &[u8], binary: &[u8]) -> io::Result<()> {
    rt.write_all(text)?;
    if agrees(text, binary) == Ok(true) {
        rt.write_all(b" is ")?;
        rt.write_all(binary)?;
        rt.write_all(b"\n")
    } else {
        rt.write_all(b" differs\n")
    }
}

// Writes whether a text is refused.
fn no_case(rt: &impl Print, text: &[u8]) -> io::Result<()> {
    rt.write_all(text)?;
    if is_refused(text) {
        rt.write_all(b" is refused\n")
    } else {
        rt.write_all(b" is not refused\n")
    }
}

fn unknown_digits(rt: &impl Print) -> io::Result<()> {
    case(rt, b"8'hzx", b"8'bzzzzxxxx")?;
    case(rt, b"8'HZX", b"8'bzzzzxxxx")?;
    case(rt, b"8'h?x", b"8'bzzzzxxxx")?;
    case(rt, b"7'o1z", b"7'b0001zzz")?;
    case(rt, b"16'h0xff", b"16'b0000xxxx11111111")?;
    case(rt, b"8'd?_", b"8'bzzzzzzzz")
}

fn extended(rt: &impl Print) -> io::Result<()> {
    case(rt, b"12'hx5", b"12'bxxxxxxxx0101")?;
    case(rt, b"9'hx5", b"9'bxxxxx0101")?;
    case(rt, b"12'h0x", b"12'b00000000xxxx")?;
    case(rt, b"8'b0x", b"8'b0000000x")?;
    case(rt, b"8'sb1", b"8'sb00000001")?;
    case(rt, b"8'sh8", b"8'sb00001000")
}

fn cut(rt: &impl Print) -> io::Result<()> {
    case(rt, b"3'hx5", b"3'b101")?;
    case(rt, b"4'd17", b"4'b0001")?;
    case(rt, b"8'd256", b"8'b00000000")?;
    case(rt, b"1_6_'hf_f", b"16'b0000000011111111")?;
    case(
        rt,
        b"65'd18446744073709551616",
        b"65'b10000000000000000000000000000000000000000000000000000000000000000",
    )
}

fn parts_missing(rt: &impl Print) -> io::Result<()> {
    no_case(rt, b"")?;
    no_case(rt, b"8'")?;
    no_case(rt, b"8'h")?;
    no_case(rt, b"8's")?;
    no_case(rt, b"'hff")?;
    no_case(rt, b"'1")?;
    no_case(rt, b"12")
}

fn wrong_sizes(rt: &impl Print) -> io::Result<()> {
    no_case(rt, b"0'b0")?;
    no_case(rt, b"00'b1")?;
    no_case(rt, b"08'hff")?;
    no_case(rt, b"4097'b0")?;
    no_case(rt, b"4_097'b0")?;
    no_case(rt, b"4294967304'hff")?;
    no_case(rt, b"-8'd1")?;
    no_case(rt, b"_8'h1")
}

fn wrong_digits(rt: &impl Print) -> io::Result<()> {
    no_case(rt, b"8'b2")?;
    no_case(rt, b"8'o8")?;
    no_case(rt, b"8'hg")?;
    no_case(rt, b"8'da")?;
    no_case(rt, b"8'd-1")?;
    no_case(rt, b"8'dxx")?;
    no_case(rt, b"8'd1x")?;
    no_case(rt, b"8'dx0")
}

fn wrong_between(rt: &impl Print) -> io::Result<()> {
    no_case(rt, b"8'h_f")?;
    no_case(rt, b"8'_h1")?;
    no_case(rt, b"8 'h1")?;
    no_case(rt, b"8'h 1")?;
    no_case(rt, b"8'h1\n")?;
    no_case(rt, b"8'ssb1")?;
    no_case(rt, b"8'bs1")?;
    no_case(rt, b"8''b1")
}

fn main(rt: HostRuntime) -> io::Result<()> {
    unknown_digits(&rt)?;
    extended(&rt)?;
    cut(&rt)?;
    parts_missing(&rt)?;
    wrong_sizes(&rt)?;
    wrong_digits(&rt)?;
    wrong_between(&rt)
}
