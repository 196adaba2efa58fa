// What a vector counts as beside a real.
#![tactic(auto)]

pub mod unchecked;
