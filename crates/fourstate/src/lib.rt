// Four-state values: the public interface on one page, by the modules of document 01, and `arms` and `literal` for document 02. A module
// cannot have the name of a crate below it, so those of document 01 have other names, and its own are told beside them. An entry takes
// whatever it is handed, and gives its result or one refusal, which leaves what it found. Contracts and the fields of types stand in the
// crates that `entries` names. A crate that calls an entry also lists in crates.txt the crates that declare the types of its arguments and
// its answer.
#![tactic(auto)]

// `bit` of document 01: a four-state bit and the single-bit rules.
pub mod bitcode {
    // 0, 1, x or z. Its code, 0, 1, 2 for x or 3 for z, is its `u8::from`; the bit of a code modulo 4 is its `LogicBit::from`.
    pub use entries::LogicBit;
    // 0 if either is 0, 1 if both are 1, else x.
    pub use entries::and;
    // 1 if either is 1, 0 if both are 0, else x.
    pub use entries::or;
    // x if either is unknown, else whether they differ.
    pub use entries::xor;
    // The bit if both are known and equal, else x.
    pub use entries::merge;
    // 0 gives 1, 1 gives 0, x and z give x.
    pub use entries::not;
}

// `planes` of document 01: a vector's bits in two lent planes of 64-bit words, value and unknown.
pub mod bitplanes {
    // A word of the value plane and the word of the unknown plane beside it.
    pub use entries::Word;
    // How many words a plane of a width has.
    pub use entries::word_count;
    // Bit i; 0 at or above the width.
    pub use entries::get;
    // Makes bit i the given bit; at or above the width nothing changes.
    pub use entries::set;
    // Puts the n lowest bits of a word in from a position on, as far as they lie below the width.
    pub use entries::splice64;
    // The n bits from a position on, at most 64; 0 beyond the width.
    pub use entries::extract64;
    // Clears the bits at or above the width.
    pub use entries::mask_top;
}

// `value` of document 01: a vector's header, the operand of equality and truth, refusals, and the constructors.
pub mod vectors {
    // A width, a sign mark and a fill mark.
    pub use entries::Header;
    // A vector's header, or a real.
    pub use entries::Operand;
    // The widest vector: 1,048,576 bits.
    pub use entries::MAX_WIDTH;
    // Why a call was not done: the error of an answer, which is a `Result`. Its number is its `u8::from`.
    pub use entries::Refusal;
    // Whether a header and its planes may be an operand, or which of 1 to 4 they break.
    pub use entries::check_vector;
    // All x, at a clamped width.
    pub use entries::new;
    // All 0, at a clamped width.
    pub use entries::zero;
    // The bits of a number, at a clamped width.
    pub use entries::from_u64;
}

// `bitwise` of document 01: operators whose result is a vector in lent planes.
pub mod operators {
    // And of each place.
    pub use entries::bitwise_and;
    // Or of each place.
    pub use entries::bitwise_or;
    // Xor of each place.
    pub use entries::bitwise_xor;
    // Merge of each place: the bit if both are known and equal, else x.
    pub use entries::merge_unknown;
    // Not of each place.
    pub use entries::bitwise_not;
    // Insert: puts the n lowest bits of a word into a vector, in place, and tells whether a bit changed.
    pub use entries::splice_bits64;
    // A real as an unsigned vector: rounded half away from zero, modulo 2 to the width.
    pub use entries::from_real_wrapped;
}

// `reduce` of document 01: reductions of a vector to one bit, truth, and the logical operators.
pub mod reductions {
    // 0 on any known 0, else x on any unknown bit, else 1.
    pub use entries::reduce_and;
    // 1 on any known 1, else x on any unknown bit, else 0.
    pub use entries::reduce_or;
    // x on any unknown bit, else whether the number of ones is odd.
    pub use entries::reduce_xor;
    // False, true or unknown.
    pub use entries::Truth;
    // True on a known 1, else unknown on an unknown bit, else false; a real is true if not equal to 0.
    pub use entries::is_nonzero;
    // And of two truths.
    pub use entries::logic_and;
    // Or of two truths.
    pub use entries::logic_or;
}

// `compare` of document 01: equality of two operands, in one bit, and which rule decided.
pub mod comparisons {
    // 0 if two known bits differ, else x on any unknown bit, else 1; where either operand is a real, both count as reals.
    pub use entries::is_equal;
    // 1 if the bit codes are the same at every place, else 0.
    pub use entries::case_eq;
    // Case equality without the places that have z on either side.
    pub use entries::casez_eq;
    // Case equality without the places that have x or z on either side.
    pub use entries::casex_eq;
    // Equality without the places where the right bit is unknown.
    pub use entries::wildcard_eq;
    // Which rule decided: a known mismatch or an unknown bit, each with its lowest place, all equal, or numeric.
    pub use entries::Rule;
    // A bit, and the rule that decided.
    pub use entries::Decision;
    // The answer of `is_equal`, and the rule.
    pub use entries::decide_equal;
    // The answer of `wildcard_eq`, and the rule.
    pub use entries::decide_wildcard;
}

// The arm that a condition picks, as a part of the caller's own plane.
pub mod arms {
    // Of two planes all of the first if the truth is true, all of the second if it is false, else the empty beginning of the first.
    pub use entries::chosen_arm;
}

// Sized literals such as 8'hzx, read into lent planes and written into a lent text.
pub mod literal {
    // Whether a text is a literal, and the header of its vector.
    pub use entries::literal_header;
    // The vector of a literal, into planes of exactly its words.
    pub use entries::read_literal;
    // How long the literal of a vector is.
    pub use entries::literal_length;
    // A vector as a binary literal, into a text that is exactly as long.
    pub use entries::write_literal;
}

// `store` of document 01, the cell store: vectors whose words lie one behind the other in two lent arenas.
pub mod cellstore {
    // At most 320 cells. `new` is an empty store; `add_input` copies a vector behind the last cell; `add_step` works out a step there.
    pub use entries::Store;
    // Where a vector's words begin in both arenas, and its header.
    pub use entries::Cell;
    // The number of the cell that was added, or the refusal, and the store as the call leaves it.
    pub use entries::Stored;
}

// `steps` of document 01: step lists.
pub mod steplists {
    // An op of a step list.
    pub use entries::Op;
    // An op and three numbers: the cells that it names, and the position of insert.
    pub use entries::Step;
    // Runs the step list in a text from an empty store, and writes its lines to a buffer.
    pub use entries::run;
    // What stopped a run: a refusal and its step.
    pub use entries::Stop;
    // The store that a run leaves, how many bytes it wrote, and how it ended: how many steps were run, or what stopped it.
    pub use entries::RunAnswer;
}
