// The calls of operators whose result is a vector, by their numbers in `replay`.
use abi::HeaderResult;
use agreement::is_vector;
use fourstate::operators;
use fourstate::vectors::{Header, Refusal};
use replay::unchecked::{are_left, field, plain};

// A vector of two operands, or of the first.
fn result(
    call: usize,
    a: Header,
    av: &[u64],
    au: &[u64],
    b: Header,
    bv: &[u64],
    bu: &[u64],
    ov: &mut [u64],
    ou: &mut [u64],
) -> Result<Header, Refusal> {
    match call {
        21 => operators::bitwise_and(a, av, au, b, bv, bu, ov, ou),
        22 => operators::bitwise_or(a, av, au, b, bv, bu, ov, ou),
        23 => operators::bitwise_xor(a, av, au, b, bv, bu, ov, ou),
        24 => operators::merge_unknown(a, av, au, b, bv, bu, ov, ou),
        _ => operators::bitwise_not(a, av, au, ov, ou),
    }
}

// The operators whose operands are lent; the last field is what the planes lent for the result hold before the call.
fn on_operands(
    call: usize,
    line: &[u8],
    a: Header,
    av: &[u64],
    au: &[u64],
    b: Header,
    bv: &[u64],
    bu: &[u64],
) -> bool {
    let k = if call == 25 { 4 } else { 5 };
    let mut value = [0u64; 65];
    let mut unknown = [0u64; 65];
    let o = field(line, k, &mut value, &mut unknown);
    let m = o.value;
    let n = o.unknown;
    let ov = &mut value[0..m];
    let ou = &mut unknown[0..n];
    let r = HeaderResult::from(result(call, a, av, au, b, bv, bu, ov, ou));
    let left = are_left(line, k, ov, ou);
    is_vector(plain(line, 0), r) && left
}

// Whether a call gives the line's answer and leaves the planes lent for it as that says.
pub(crate) fn results(call: usize, line: &[u8], a: Header, av: &[u64], au: &[u64]) -> bool {
    let mut value = [0u64; 65];
    let mut unknown = [0u64; 65];
    let f = field(line, 4, &mut value, &mut unknown);
    let b = f.header;
    let m = f.value;
    let n = f.unknown;
    on_operands(call, line, a, av, au, b, &value[0..m], &unknown[0..n])
}
