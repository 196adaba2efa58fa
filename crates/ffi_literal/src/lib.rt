// Sized literals for C and Rust, as numbers and slices; the crate `abi` says how an answer becomes numbers. Each export asks nothing of its
// caller and does nothing but call its entry.
#![tactic(auto)]

ghost use Rattle.std.specs.Prelude.{◌≡◌};
ghost use Rattle.words.specs.Planes.{lent_by};
ghost use Rattle.literal_read.specs.Literal.{literal_header, read_literal};
ghost use Rattle.literal_write.specs.Write.{literal_length, write_literal};
ghost use Rattle.abi.specs.Coded.{coded_done, coded_header, coded_length, coded, coded_outcome};

use abi::{HeaderResult, LengthResult, done};
use value::Header;

// `literal_read::literal_header`
#[unsafe(no_mangle)]
pub extern "C" fn vowherunga_literal_header(text: &[u8]) -> HeaderResult
    ensures { result ≡ coded_header (literal_header text.now) }
{
    HeaderResult::from(literal_read::literal_header(text))
}

// `literal_read::read_literal`
#[unsafe(no_mangle)]
pub extern "C" fn vowherunga_read_literal(
    text: &[u8],
    ov: &mut [u64],
    ou: &mut [u64],
) -> HeaderResult
    ensures { coded result (lent_by ov.new ou.new)
        ≡ coded_outcome coded_header (read_literal text.now (lent_by ov.old ou.old)) }
{
    HeaderResult::from(literal_read::read_literal(text, ov, ou))
}

// `literal_write::literal_length`
#[unsafe(no_mangle)]
pub extern "C" fn vowherunga_literal_length(h: Header) -> LengthResult
    ensures { result ≡ coded_length (literal_length h) }
{
    LengthResult::from(literal_write::literal_length(h))
}

// `literal_write::write_literal`
#[unsafe(no_mangle)]
pub extern "C" fn vowherunga_write_literal(
    h: Header,
    value: &[u64],
    unknown: &[u64],
    text: &mut [u8],
) -> u8
    ensures { coded result text.new
        ≡ coded_outcome coded_done (write_literal h (lent_by value.now unknown.now) text.old) }
{
    done(literal_write::write_literal(h, value, unknown, text))
}
