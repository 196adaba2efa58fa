// Reads tables of calls with their answers, for programs that work the calls and compare.
//
// A line is `ANSWER = NAME OPERAND..`, with one space between; ANSWER is field 0, NAME field 2, and the operands follow. A vector is
//
//     BITS             the bits, highest first, in planes of their word count
//     WIDTH:A:B:BITS   a width, and planes of A words and B words that start with the bits; the bits may reach above the width
//
// maybe behind a letter for its marks: `u` unsigned, as without a letter, `s` signed, `f` a fill, `g` a signed fill. A real is `r`, maybe a
// minus, and a quotient: r-5/2; r1/0 is infinite, r0/0 is NaN. These are the calls:
//
//     BIT = get VECTOR I                       VECTOR = bitwise_and VECTOR VECTOR OUT, and so bitwise_or, bitwise_xor, merge_unknown
//     BITS = set VECTOR I BIT                  VECTOR = bitwise_not VECTOR OUT
//     BITS = splice64 VECTOR POS BITS N        BITS = splice_bits64 VECTOR POS BITS N CHANGED
//     BITS = extract64 VECTOR POS N            VECTOR = from_real_wrapped OUT REAL
//     BITS = mask_top VECTOR                   BIT = reduce_and VECTOR, and so reduce_or, reduce_xor
//     VECTOR = new OUT                         BIT = is_nonzero OPERAND
//     VECTOR = zero OUT                        BIT = logic_and OPERAND OPERAND, and so logic_or, is_equal
//     VECTOR = from_u64 OUT NUMBER             BIT = case_eq VECTOR VECTOR, and so casez_eq, casex_eq, wildcard_eq
//     BIT = decide_equal OPERAND OPERAND RULE PLACE
//     BIT = decide_wildcard VECTOR VECTOR RULE PLACE
//     VECTOR = chosen_arm VECTOR VECTOR CONDITION
//
// OUT is what the planes lent for a result hold before the call. A call that writes and answers no vector is answered by the bits that it
// leaves, where leading zeros may be left out; CHANGED is 1 or 0. RULE and PLACE are numbers as in `abi::DecisionResult`. The truth of
// CONDITION, a vector or a real, picks an arm; the planes of the answer have exactly the words of the two that come back, and a condition
// that is refused has no answer. Where a call is refused, the answer is `!` and the number of the refusal, and the planes lent for writing
// hold what they held; RULE and PLACE are then not read.
//
// Every text is read, whatever it holds. A field or a part that is not there is empty. A character's digit is its lowest four bits; a
// number is taken modulo 2^64, a width modulo 2^32, and an empty number is 0. A character that is none of 0 1 x z is the bit 0. A field
// with an `r` in it is taken for a real, which has no planes and is negative if there is a minus in it, and one with a `!` in it for a
// refusal. Field 1 and fields behind those of the call are not read. A name that is none, and a call whose first operand asks for more
// than 16,385 words or another for more than 65, is no call. Of what a call leaves 65 words are told, and zeros behind them.
#![tactic(auto)]

mod parse;
pub mod unchecked;
