// Not and truth of a vector, worked out bit by bit by the single-bit rules, for C and Rust: proved against the definitions of the word
// forms, for the benchmark and the test that hold both forms beside each other. Each export asks nothing of its caller.
#![tactic(auto)]

ghost use Rattle.std.specs.Prelude.{◌≡◌, ◌<◌, length};
ghost use Rattle.refusal.specs.Outcome.{outcome, answer};
ghost use Rattle.words.specs.Vector.{at};
ghost use Rattle.words.specs.Planes.{word_count, from_planes, word_at, lent_by, planes_of};
ghost use Rattle.value.specs.declared.Operand.TheVariants.{Vector};
ghost use Rattle.reduce_words.specs.Fold.{truth_of};
ghost use Rattle.bitwise_words.specs.Joined.{inverted};
ghost use Rattle.bitwise.specs.Bitwise.{bitwise_not};
ghost use Rattle.truth.specs.Truth.{is_nonzero};
ghost use Rattle.abi.specs.Coded.{coded_header, coded_truth, coded, coded_outcome};

use abi::{BitResult, HeaderResult};
use bit::LogicBit;
use bits::unchecked::get;
use reduce_words::Truth;
use refusal::Refusal;
use value::{Header, check_output, check_vector};
use words::Word;
use words::unchecked::least;

// Word k of the inverted vector: its bits below the width, from the highest down, each put behind those above it. The code of a bit is its
// value digit and twice its unknown digit.
fn not_word(width: u32, av: &[u64], au: &[u64], k: usize) -> Word
    requires av_len { (length av.now ≡ word_count width) × (length au.now ≡ word_count width) }
    requires k_bound { k < word_count width }
    ensures { result ≡ word_at (at (inverted (from_planes width av.now au.now))) k }
{
    let start = k * 64;
    let end = least(start + 64, width as usize);
    let mut value: u64 = 0;
    let mut unknown: u64 = 0;
    for i in (start..end).rev() {
        let b = get(width, av, au, i);
        let c = u8::from(bit::not(b)) as u64;
        value = value * 2 + c % 2;
        unknown = unknown * 2 + c / 2;
    }
    Word { value, unknown }
}

// Writes the planes of the inverted vector.
fn not_bits(width: u32, av: &[u64], au: &[u64], ov: &mut [u64], ou: &mut [u64])
    requires av_len { (length av.now ≡ word_count width) × (length au.now ≡ word_count width) }
    requires ov_len { (length ov.old ≡ word_count width) × (length ou.old ≡ word_count width) }
    ensures { lent_by ov.new ou.new
        ≡ planes_of (inverted (from_planes width av.now au.now)) }
{
    for k in 0..ov.len() {
        let x = not_word(width, av, au, k);
        ov[k] = x.value;
        ou[k] = x.unknown;
    }
}

// Not, refused as `bitwise::bitwise_not` refuses.
#[tactic(auto, using(value::proofs::Checks::vector_accepted), unfolding(value::specs::Checks::check_output))]
fn not_vector(
    a: Header,
    av: &[u64],
    au: &[u64],
    ov: &mut [u64],
    ou: &mut [u64],
) -> Result<Header, Refusal>
    ensures { outcome (answer result) (lent_by ov.new ou.new)
        ≡ bitwise_not a (lent_by av.now au.now) (lent_by ov.old ou.old) }
{
    check_vector(a, av, au)?;
    check_output(a.width, ov, ou)?;
    not_bits(a.width, av, au, ov, ou);
    Ok(Header {
        width: a.width,
        is_signed: a.is_signed,
        is_fill: false,
    })
}

// True at the first known 1, else unknown where an unknown bit was seen, else false.
fn truth_bits(width: u32, value: &[u64], unknown: &[u64]) -> Truth
    requires { (length value.now ≡ word_count width) × (length unknown.now ≡ word_count width) }
    ensures { result ≡ truth_of (from_planes width value.now unknown.now) }
{
    let mut seen = false;
    for i in 0..width as usize {
        let b = get(width, value, unknown, i);
        match b {
            LogicBit::One => return Truth::True,
            LogicBit::Zero => {}
            LogicBit::X | LogicBit::Z => seen = true,
        }
    }
    if seen {
        return Truth::Unknown;
    }
    Truth::False
}

// The truth of a vector, refused as `truth::is_nonzero` refuses.
#[tactic(auto, using(value::proofs::Checks::vector_accepted), unfolding(value::specs::Checks::check_operand))]
fn truth_vector(a: Header, value: &[u64], unknown: &[u64]) -> Result<Truth, Refusal>
    ensures { answer result ≡ is_nonzero (Vector a) (lent_by value.now unknown.now) }
{
    check_vector(a, value, unknown)?;
    Ok(truth_bits(a.width, value, unknown))
}

// Not, bit by bit: the equation of `ffi::vowherunga_bitwise_not`.
#[unsafe(no_mangle)]
pub extern "C" fn bit_by_bit_not(
    a: Header,
    av: &[u64],
    au: &[u64],
    ov: &mut [u64],
    ou: &mut [u64],
) -> HeaderResult
    ensures { coded result (lent_by ov.new ou.new)
        ≡ coded_outcome coded_header (bitwise_not a (lent_by av.now au.now) (lent_by ov.old ou.old)) }
{
    HeaderResult::from(not_vector(a, av, au, ov, ou))
}

// Truth, bit by bit: the equation of `ffi_answers::vowherunga_is_nonzero` for a vector; 0 false, 1 true, 2 unknown.
#[unsafe(no_mangle)]
pub extern "C" fn bit_by_bit_truth(a: Header, value: &[u64], unknown: &[u64]) -> BitResult
    ensures { result ≡ coded_truth (is_nonzero (Vector a) (lent_by value.now unknown.now)) }
{
    BitResult::from(truth_vector(a, value, unknown))
}
