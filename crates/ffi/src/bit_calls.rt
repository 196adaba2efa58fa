// Bits and words of two lent planes, and the constructors.
ghost use Rattle.std.specs.Prelude.{◌≡◌};
ghost use Rattle.words.specs.Planes.{lent_by};
ghost use Rattle.bit.specs.Rules.{of_code};
ghost use Rattle.planes.specs.Entries.{get_bit, set_bit, splice_bits, extract_bits, mask_top};
ghost use Rattle.value.specs.Checks.{check_vector};
ghost use Rattle.constructors.specs.Constructors.{new_vector, zero_vector, from_u64};
ghost use Rattle.abi.specs.Coded.{coded_done, coded_bit, coded_word, coded_header, coded, coded_outcome};

use abi::{BitResult, HeaderResult, WordResult, done};
use bit::LogicBit;
use value::Header;
use words::Word;

// `planes::get`
#[unsafe(no_mangle)]
pub extern "C" fn vowherunga_get(width: u32, value: &[u64], unknown: &[u64], i: usize) -> BitResult
    ensures { result ≡ coded_bit (get_bit width (lent_by value.now unknown.now) i) }
{
    BitResult::from(planes::get(width, value, unknown, i))
}

// `planes::set`, the bit by its code modulo 4
#[unsafe(no_mangle)]
pub extern "C" fn vowherunga_set(
    width: u32,
    value: &mut [u64],
    unknown: &mut [u64],
    i: usize,
    bit: u8,
) -> u8
    ensures { coded result (lent_by value.new unknown.new)
        ≡ coded_outcome coded_done (set_bit width (lent_by value.old unknown.old) i (of_code bit)) }
{
    done(planes::set(width, value, unknown, i, LogicBit::from(bit)))
}

// `planes::splice64`
#[unsafe(no_mangle)]
pub extern "C" fn vowherunga_splice64(
    width: u32,
    value: &mut [u64],
    unknown: &mut [u64],
    pos: usize,
    bits_value: u64,
    bits_unknown: u64,
    n: usize,
) -> u8
    ensures { coded result (lent_by value.new unknown.new)
        ≡ coded_outcome coded_done
        (splice_bits width (lent_by value.old unknown.old) pos
        (record { value = bits_value; unknown = bits_unknown }) n) }
{
    let bits = Word {
        value: bits_value,
        unknown: bits_unknown,
    };
    done(planes::splice64(width, value, unknown, pos, bits, n))
}

// `planes::extract64`
#[unsafe(no_mangle)]
pub extern "C" fn vowherunga_extract64(
    width: u32,
    value: &[u64],
    unknown: &[u64],
    pos: usize,
    n: usize,
) -> WordResult
    ensures { result ≡ coded_word (extract_bits width (lent_by value.now unknown.now) pos n) }
{
    WordResult::from(planes::extract64(width, value, unknown, pos, n))
}

// `planes::mask_top`
#[unsafe(no_mangle)]
pub extern "C" fn vowherunga_mask_top(width: u32, value: &mut [u64], unknown: &mut [u64]) -> u8
    ensures { coded result (lent_by value.new unknown.new)
        ≡ coded_outcome coded_done (mask_top width (lent_by value.old unknown.old)) }
{
    done(planes::mask_top(width, value, unknown))
}

// `value::check_vector`
#[unsafe(no_mangle)]
pub extern "C" fn vowherunga_check_vector(h: Header, value: &[u64], unknown: &[u64]) -> u8
    ensures { result ≡ coded_done (check_vector h (lent_by value.now unknown.now)) }
{
    done(value::check_vector(h, value, unknown))
}

// `constructors::new`
#[unsafe(no_mangle)]
pub extern "C" fn vowherunga_new(width: u32, value: &mut [u64], unknown: &mut [u64]) -> HeaderResult
    ensures { coded result (lent_by value.new unknown.new)
        ≡ coded_outcome coded_header (new_vector width (lent_by value.old unknown.old)) }
{
    HeaderResult::from(constructors::new(width, value, unknown))
}

// `constructors::zero`
#[unsafe(no_mangle)]
pub extern "C" fn vowherunga_zero(
    width: u32,
    value: &mut [u64],
    unknown: &mut [u64],
) -> HeaderResult
    ensures { coded result (lent_by value.new unknown.new)
        ≡ coded_outcome coded_header (zero_vector width (lent_by value.old unknown.old)) }
{
    HeaderResult::from(constructors::zero(width, value, unknown))
}

// `constructors::from_u64`
#[unsafe(no_mangle)]
pub extern "C" fn vowherunga_from_u64(
    val: u64,
    width: u32,
    value: &mut [u64],
    unknown: &mut [u64],
) -> HeaderResult
    ensures { coded result (lent_by value.new unknown.new)
        ≡ coded_outcome coded_header (from_u64 val width (lent_by value.old unknown.old)) }
{
    HeaderResult::from(constructors::from_u64(val, width, value, unknown))
}
