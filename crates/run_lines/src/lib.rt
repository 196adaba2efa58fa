// The lines that a run of a step list writes.
#![tactic(auto)]

pub mod unchecked;
