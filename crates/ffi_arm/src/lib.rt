// The arm that a condition picks, for C and Rust. An export returns no slice: the answer tells which arm it is and how many words of it,
// from its beginning on. The export asks nothing of its caller.
#![tactic(auto)]

ghost use Rattle.std.specs.Prelude.{◌≡◌};
ghost use Rattle.arm.specs.Arm.{part_of};
ghost use Rattle.ffi_arm.specs.Told.{truth_of_code, picks_second, told_arm};

use arm::chosen_arm;
use bit::LogicBit;
use reduce_words::Truth;

#[repr(C)]
#[derive(Clone, Copy)]
pub struct ArmResult {
    pub is_second: bool,
    pub length: usize,
}

// The truth of a bit by its code: x and z are unknown. No `From`: neither type is this crate's.
fn truth_of_code(code: u8) -> Truth
    ensures { result ≡ truth_of_code code }
{
    match LogicBit::from(code) {
        LogicBit::Zero => Truth::False,
        LogicBit::One => Truth::True,
        LogicBit::X => Truth::Unknown,
        LogicBit::Z => Truth::Unknown,
    }
}

// Whether the chosen arm is the second one.
fn picks_second(t: Truth) -> bool
    ensures { result ≡ picks_second t }
{
    matches!(t, Truth::False)
}

// `arm::chosen_arm`
#[unsafe(no_mangle)]
pub extern "C" fn vowherunga_chosen_arm<'a>(
    truth: u8,
    first: &'a [u64],
    second: &'a [u64],
) -> ArmResult
    ensures { result ≡ told_arm (truth_of_code truth) (part_of first.entry) (part_of second.entry) }
{
    let t = truth_of_code(truth);
    let chosen = chosen_arm(t, first, second);
    ArmResult {
        is_second: picks_second(t),
        length: chosen.len(),
    }
}
