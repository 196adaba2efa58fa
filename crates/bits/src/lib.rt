// Bits at any place of two planes: read out, one or up to 64, and put in.
#![tactic(auto)]

pub mod unchecked;
