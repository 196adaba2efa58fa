// The calls of operators whose answer is a bit, by their numbers in `replay`.
use abi::{BitResult, operand};
use agreement::{Field, is_bit};
use fourstate::bitcode::LogicBit;
use fourstate::vectors::{Header, Refusal};
use fourstate::{comparisons, reductions};
use replay::unchecked::{field, plain};

// An answer bit of one operand.
fn of_one(call: usize, a: Field, av: &[u64], au: &[u64]) -> BitResult {
    let h = a.header;
    match call {
        10 => BitResult::from(reductions::reduce_and(h, av, au)),
        11 => BitResult::from(reductions::reduce_or(h, av, au)),
        12 => BitResult::from(reductions::reduce_xor(h, av, au)),
        _ => BitResult::from(reductions::is_nonzero(operand(a.is_real, h, a.real), av, au)),
    }
}

// An answer bit of two operands, each a vector or a real.
fn of_two(
    call: usize,
    a: Field,
    av: &[u64],
    au: &[u64],
    b: Field,
    bv: &[u64],
    bu: &[u64],
) -> Result<LogicBit, Refusal> {
    let x = operand(a.is_real, a.header, a.real);
    let y = operand(b.is_real, b.header, b.real);
    match call {
        14 => reductions::logic_and(x, av, au, y, bv, bu),
        15 => reductions::logic_or(x, av, au, y, bv, bu),
        _ => comparisons::is_equal(x, av, au, y, bv, bu),
    }
}

// An answer bit of two vectors.
fn of_vectors(
    call: usize,
    a: Header,
    av: &[u64],
    au: &[u64],
    b: Header,
    bv: &[u64],
    bu: &[u64],
) -> Result<LogicBit, Refusal> {
    match call {
        17 => comparisons::case_eq(a, av, au, b, bv, bu),
        18 => comparisons::casez_eq(a, av, au, b, bv, bu),
        19 => comparisons::casex_eq(a, av, au, b, bv, bu),
        _ => comparisons::wildcard_eq(a, av, au, b, bv, bu),
    }
}

// An answer bit of two operands.
fn of_both(
    call: usize,
    a: Field,
    av: &[u64],
    au: &[u64],
    b: Field,
    bv: &[u64],
    bu: &[u64],
) -> Result<LogicBit, Refusal> {
    if call < 17 {
        return of_two(call, a, av, au, b, bv, bu);
    }
    of_vectors(call, a.header, av, au, b.header, bv, bu)
}

// The operators whose left operand is lent.
fn on_left(call: usize, line: &[u8], a: Field, av: &[u64], au: &[u64]) -> BitResult {
    if call < 14 {
        return of_one(call, a, av, au);
    }
    let mut value = [0u64; 65];
    let mut unknown = [0u64; 65];
    let b = field(line, 4, &mut value, &mut unknown);
    let m = b.value;
    let n = b.unknown;
    BitResult::from(of_both(call, a, av, au, b, &value[0..m], &unknown[0..n]))
}

// Whether a call gives the line's answer.
pub(crate) fn answers(call: usize, line: &[u8], a: Field, av: &[u64], au: &[u64]) -> bool {
    is_bit(plain(line, 0), on_left(call, line, a, av, au))
}
