// The plain machine of document 01, as definitions; the code of its checks is in `plan`.
#![tactic(auto)]

// The words of each arena, and those of the shorter scratch plane.
#[derive(Clone, Copy)]
pub struct Room {
    pub arena: usize,
    pub scratch: usize,
}
