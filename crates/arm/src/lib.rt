// The arm that a condition picks, handed back as a part of the caller's own plane.
#![tactic(auto)]

ghost use Rattle.std.specs.Prelude.{◌≡◌};
ghost use Rattle.arm.specs.Arm.{part_of, chosen_arm};

use reduce_words::Truth;

// All of the first where the truth is true, all of the second where it is false, the empty beginning of the first where it is unknown. Both
// planes are lent for reading: neither can be changed.
pub fn chosen_arm<'a>(t: Truth, first: &'a [u64], second: &'a [u64]) -> &'a [u64]
    ensures { part_of result ≡ chosen_arm t (part_of first.entry) (part_of second.entry) }
{
    match t {
        Truth::True => first,
        Truth::False => second,
        Truth::Unknown => &first[..0],
    }
}
