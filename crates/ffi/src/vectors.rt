// The operators whose result is a vector.
ghost use Rattle.std.specs.Prelude.{◌≡◌};
ghost use Rattle.words.specs.Planes.{lent_by};
ghost use Rattle.lanes.specs.declared.Bitwise.TheVariants.{And, Or, Xor, Merge};
ghost use Rattle.bitwise.specs.Bitwise.{join_vectors, bitwise_not};
ghost use Rattle.insert.specs.Insert.{insert_bits};
ghost use Rattle.real.specs.Round.{from_real};
ghost use Rattle.abi.specs.Coded.{coded_header, coded_change, coded, coded_outcome};

use abi::{BitResult, HeaderResult};
use value::Header;
use words::Word;

// `bitwise::bitwise_and`
#[unsafe(no_mangle)]
pub extern "C" fn vowherunga_bitwise_and(
    a: Header,
    av: &[u64],
    au: &[u64],
    b: Header,
    bv: &[u64],
    bu: &[u64],
    ov: &mut [u64],
    ou: &mut [u64],
) -> HeaderResult
    ensures { coded result (lent_by ov.new ou.new)
        ≡ coded_outcome coded_header
        (join_vectors And a (lent_by av.now au.now) b (lent_by bv.now bu.now) (lent_by ov.old ou.old)) }
{
    HeaderResult::from(bitwise::bitwise_and(a, av, au, b, bv, bu, ov, ou))
}

// `bitwise::bitwise_or`
#[unsafe(no_mangle)]
pub extern "C" fn vowherunga_bitwise_or(
    a: Header,
    av: &[u64],
    au: &[u64],
    b: Header,
    bv: &[u64],
    bu: &[u64],
    ov: &mut [u64],
    ou: &mut [u64],
) -> HeaderResult
    ensures { coded result (lent_by ov.new ou.new)
        ≡ coded_outcome coded_header
        (join_vectors Or a (lent_by av.now au.now) b (lent_by bv.now bu.now) (lent_by ov.old ou.old)) }
{
    HeaderResult::from(bitwise::bitwise_or(a, av, au, b, bv, bu, ov, ou))
}

// `bitwise::bitwise_xor`
#[unsafe(no_mangle)]
pub extern "C" fn vowherunga_bitwise_xor(
    a: Header,
    av: &[u64],
    au: &[u64],
    b: Header,
    bv: &[u64],
    bu: &[u64],
    ov: &mut [u64],
    ou: &mut [u64],
) -> HeaderResult
    ensures { coded result (lent_by ov.new ou.new)
        ≡ coded_outcome coded_header
        (join_vectors Xor a (lent_by av.now au.now) b (lent_by bv.now bu.now) (lent_by ov.old ou.old)) }
{
    HeaderResult::from(bitwise::bitwise_xor(a, av, au, b, bv, bu, ov, ou))
}

// `bitwise::merge_unknown`
#[unsafe(no_mangle)]
pub extern "C" fn vowherunga_merge_unknown(
    a: Header,
    av: &[u64],
    au: &[u64],
    b: Header,
    bv: &[u64],
    bu: &[u64],
    ov: &mut [u64],
    ou: &mut [u64],
) -> HeaderResult
    ensures { coded result (lent_by ov.new ou.new)
        ≡ coded_outcome coded_header
        (join_vectors Merge a (lent_by av.now au.now) b (lent_by bv.now bu.now) (lent_by ov.old ou.old)) }
{
    HeaderResult::from(bitwise::merge_unknown(a, av, au, b, bv, bu, ov, ou))
}

// `bitwise::bitwise_not`
#[unsafe(no_mangle)]
pub extern "C" fn vowherunga_bitwise_not(
    a: Header,
    av: &[u64],
    au: &[u64],
    ov: &mut [u64],
    ou: &mut [u64],
) -> HeaderResult
    ensures { coded result (lent_by ov.new ou.new)
        ≡ coded_outcome coded_header (bitwise_not a (lent_by av.now au.now) (lent_by ov.old ou.old)) }
{
    HeaderResult::from(bitwise::bitwise_not(a, av, au, ov, ou))
}

// `insert::splice_bits64`: 1 where a bit changed
#[unsafe(no_mangle)]
pub extern "C" fn vowherunga_splice_bits64(
    a: Header,
    value: &mut [u64],
    unknown: &mut [u64],
    pos: usize,
    bits_value: u64,
    bits_unknown: u64,
    n: usize,
) -> BitResult
    ensures { coded result (lent_by value.new unknown.new)
        ≡ coded_outcome coded_change
        (insert_bits a (lent_by value.old unknown.old) pos (record { value = bits_value; unknown = bits_unknown }) n) }
{
    let bits = Word {
        value: bits_value,
        unknown: bits_unknown,
    };
    BitResult::from(insert::splice_bits64(a, value, unknown, pos, bits, n))
}

// `real::from_real_wrapped`
#[unsafe(no_mangle)]
pub extern "C" fn vowherunga_from_real_wrapped(
    f: f64,
    width: u32,
    value: &mut [u64],
    unknown: &mut [u64],
) -> HeaderResult
    ensures { coded result (lent_by value.new unknown.new)
        ≡ coded_outcome coded_header (from_real f width (lent_by value.old unknown.old)) }
{
    HeaderResult::from(real::from_real_wrapped(f, width, value, unknown))
}
