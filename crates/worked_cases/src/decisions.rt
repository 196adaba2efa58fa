// The calls that tell which rule decided a comparison, by their numbers in `replay`.
use crate::lent_bits::number;
use abi::{DecisionResult, operand};
use agreement::{Field, is_decision};
use fourstate::comparisons;
use fourstate::comparisons::Decision;
use fourstate::vectors::Refusal;
use replay::unchecked::{field, plain};

// A decision on two operands.
fn decision(
    call: usize,
    a: Field,
    av: &[u64],
    au: &[u64],
    b: Field,
    bv: &[u64],
    bu: &[u64],
) -> Result<Decision, Refusal> {
    let x = operand(a.is_real, a.header, a.real);
    let y = operand(b.is_real, b.header, b.real);
    match call {
        26 => comparisons::decide_equal(x, av, au, y, bv, bu),
        _ => comparisons::decide_wildcard(a.header, av, au, b.header, bv, bu),
    }
}

// Whether a call gives the line's answer by the rule of field 5 and the place of field 6; its left operand is lent.
pub(crate) fn decides(call: usize, line: &[u8], a: Field, av: &[u64], au: &[u64]) -> bool {
    let mut value = [0u64; 65];
    let mut unknown = [0u64; 65];
    let b = field(line, 4, &mut value, &mut unknown);
    let m = b.value;
    let n = b.unknown;
    let r = DecisionResult::from(decision(call, a, av, au, b, &value[0..m], &unknown[0..n]));
    is_decision(plain(line, 0), number(line, 5), number(line, 6), r)
}
