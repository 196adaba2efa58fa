// The calls that make a vector, by their numbers in `replay`.
use abi::HeaderResult;
use agreement::is_vector;
use fourstate::operators::from_real_wrapped;
use fourstate::vectors::{Header, Refusal, from_u64, new, zero};
use replay::unchecked::{are_left, plain};

fn make(
    call: usize,
    line: &[u8],
    width: u32,
    value: &mut [u64],
    unknown: &mut [u64],
) -> Result<Header, Refusal> {
    let f = plain(line, 4);
    match call {
        6 => new(width, value, unknown),
        7 => zero(width, value, unknown),
        8 => from_u64(f.number, width, value, unknown),
        _ => from_real_wrapped(f.real, width, value, unknown),
    }
}

// Whether a call gives the line's answer and leaves the planes as that says.
pub(crate) fn makes(
    call: usize,
    line: &[u8],
    h: Header,
    value: &mut [u64],
    unknown: &mut [u64],
) -> bool {
    let r = HeaderResult::from(make(call, line, h.width, value, unknown));
    let left = are_left(line, 3, value, unknown);
    is_vector(plain(line, 0), r) && left
}
