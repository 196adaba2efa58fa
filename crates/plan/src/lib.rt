// A step planned: what the plain machine's checks say of it, and where its cell goes. It goes by headers, the next free word and the
// numbers of words alone.
#![tactic(auto)]

use ops::Op;
use refusal::Refusal;
use value::Header;

pub mod unchecked;

// A step that is not refused: its op, the places of the cells that it names (the first one's where its op does not use an operand), the
// position of an insert, the word at which its own cell begins, and that cell's header.
#[derive(Clone, Copy)]
pub struct PlannedStep {
    pub op: Op,
    pub a: usize,
    pub b: usize,
    pub c: usize,
    pub pos: usize,
    pub start: usize,
    pub header: Header,
}
