// The entries of documents 01 and 02 and their types in one list, by the crates that have them, which `fourstate` sorts by module. The page
// could name these crates itself: it does not, so that it is cut by what a caller looks for alone, and a shell case holds the two together.
#![tactic(auto)]

pub use arm::chosen_arm;
pub use bit::{LogicBit, and, merge, not, or, xor};
pub use bitwise::{bitwise_and, bitwise_not, bitwise_or, bitwise_xor, merge_unknown};
pub use cells::Cell;
pub use compare::{case_eq, casex_eq, casez_eq, is_equal, wildcard_eq};
pub use constructors::{from_u64, new, zero};
pub use decide::{Decision, Rule, decide_equal, decide_wildcard};
pub use insert::splice_bits64;
pub use literal_read::{literal_header, read_literal};
pub use literal_write::{literal_length, write_literal};
pub use ops::{Op, Step};
pub use planes::{extract64, get, mask_top, set, splice64};
pub use real::from_real_wrapped;
pub use reduce::{reduce_and, reduce_or, reduce_xor};
pub use reduce_words::Truth;
pub use refusal::Refusal;
pub use steps::{RunAnswer, Stop, run};
pub use store::{Store, Stored};
pub use truth::{is_nonzero, logic_and, logic_or};
pub use value::{Header, MAX_WIDTH, Operand, check_vector};
pub use words::{Word, word_count};
