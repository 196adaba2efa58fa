// A planned step worked out on the cells that it names, into scratch planes, and copied behind the last cell.
#![tactic(auto)]

use cells::Cell;

pub mod unchecked;

// The cells that a step names, in operand order.
#[derive(Clone, Copy)]
struct Operands {
    a: Cell,
    b: Cell,
    c: Cell,
}
