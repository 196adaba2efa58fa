// The entries that read bits or write planes, for C and Rust, as numbers and slices; the crate `abi` says how an answer becomes numbers.
// Each export asks nothing of its caller and does nothing but call its entry.
#![tactic(auto)]

pub mod bit_calls;
pub mod vectors;
