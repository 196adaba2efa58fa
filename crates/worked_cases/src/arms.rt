// The call that hands back the arm that a condition picks.
use abi::operand;
use fourstate::arms::chosen_arm;
use fourstate::reductions::{Truth, is_nonzero};
use fourstate::vectors::Refusal;
use replay::unchecked::field;

// The truth of the condition, which is field 5.
fn condition(line: &[u8]) -> Result<Truth, Refusal> {
    let mut value = [0u64; 65];
    let mut unknown = [0u64; 65];
    let c = field(line, 5, &mut value, &mut unknown);
    let m = c.value;
    let n = c.unknown;
    is_nonzero(
        operand(c.is_real, c.header, c.real),
        &value[0..m],
        &unknown[0..n],
    )
}

// Whether the chosen planes are those of the line's answer.
fn are_chosen<'a>(
    t: Truth,
    line: &[u8],
    av: &'a [u64],
    au: &'a [u64],
    bv: &'a [u64],
    bu: &'a [u64],
) -> bool {
    let mut value = [0u64; 65];
    let mut unknown = [0u64; 65];
    let want = field(line, 0, &mut value, &mut unknown);
    let m = want.value;
    let n = want.unknown;
    chosen_arm(t, av, bv) == &value[0..m] && chosen_arm(t, au, bu) == &unknown[0..n]
}

// Whether the call gives the planes of the line's answer; those of the first arm are lent.
pub(crate) fn chooses<'a>(line: &[u8], av: &'a [u64], au: &'a [u64]) -> bool {
    let mut value = [0u64; 65];
    let mut unknown = [0u64; 65];
    let b = field(line, 4, &mut value, &mut unknown);
    let m = b.value;
    let n = b.unknown;
    match condition(line) {
        Ok(t) => are_chosen(t, line, av, au, &value[0..m], &unknown[0..n]),
        Err(_) => false,
    }
}
