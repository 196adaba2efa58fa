// The word forms for C and Rust, for vectors of at most 64 bits: a word of each plane in, a pair of words or the code of a bit out. Each
// export asks nothing of its caller and does nothing but call its form.
#![tactic(auto)]

ghost use Rattle.std.specs.Prelude.{◌≡◌, min};
ghost use Rattle.bit.specs.Rules.{code};
ghost use Rattle.words.specs.Planes.{vector_of, planes_of};
ghost use Rattle.lanes.specs.declared.Bitwise.TheVariants.{And, Or, Xor, Merge};
ghost use Rattle.bitwise_words.specs.Joined.{joined, inverted};
ghost use Rattle.reduce_words.specs.Fold.{reduce_and, reduce_or, reduce_xor, truth_of, truth_bit};
ghost use Rattle.compare_words.specs.declared.Comparison.TheVariants.{Equal, CaseEqual, CasezEqual, CasexEqual, WildcardEqual};
ghost use Rattle.compare_words.specs.Compared.{compared};
ghost use Rattle.narrow.specs.Narrow.{single, plain64};

use bit::LogicBit;
use compare_words::Comparison;
use lanes::Bitwise;
use words::Word;

// `narrow::join` by and
#[unsafe(no_mangle)]
pub extern "C" fn vowherunga_and_word(a: Word, b: Word) -> Word
    ensures { single result ≡ planes_of (joined And (plain64 a) (plain64 b)) }
{
    narrow::join(Bitwise::And, a, b)
}

// `narrow::join` by or
#[unsafe(no_mangle)]
pub extern "C" fn vowherunga_or_word(a: Word, b: Word) -> Word
    ensures { single result ≡ planes_of (joined Or (plain64 a) (plain64 b)) }
{
    narrow::join(Bitwise::Or, a, b)
}

// `narrow::join` by xor
#[unsafe(no_mangle)]
pub extern "C" fn vowherunga_xor_word(a: Word, b: Word) -> Word
    ensures { single result ≡ planes_of (joined Xor (plain64 a) (plain64 b)) }
{
    narrow::join(Bitwise::Xor, a, b)
}

// `narrow::join` by merge
#[unsafe(no_mangle)]
pub extern "C" fn vowherunga_merge_word(a: Word, b: Word) -> Word
    ensures { single result ≡ planes_of (joined Merge (plain64 a) (plain64 b)) }
{
    narrow::join(Bitwise::Merge, a, b)
}

// `narrow::not`
#[unsafe(no_mangle)]
pub extern "C" fn vowherunga_not_word(width: u32, a: Word) -> Word
    ensures { single result ≡ planes_of (inverted (vector_of (min 64 width) (single a))) }
{
    narrow::not(width, a)
}

// `narrow::reduce_and`
#[unsafe(no_mangle)]
pub extern "C" fn vowherunga_reduce_and_word(width: u32, a: Word) -> u8
    ensures { result ≡ code (reduce_and (vector_of (min 64 width) (single a))) }
{
    u8::from(narrow::reduce_and(width, a))
}

// `narrow::reduce_or`
#[unsafe(no_mangle)]
pub extern "C" fn vowherunga_reduce_or_word(a: Word) -> u8
    ensures { result ≡ code (reduce_or (vector_of 64 (single a))) }
{
    u8::from(narrow::reduce_or(a))
}

// `narrow::reduce_xor`
#[unsafe(no_mangle)]
pub extern "C" fn vowherunga_reduce_xor_word(a: Word) -> u8
    ensures { result ≡ code (reduce_xor (vector_of 64 (single a))) }
{
    u8::from(narrow::reduce_xor(a))
}

// `narrow::truth`: 0 false, 1 true, 2 unknown
#[unsafe(no_mangle)]
pub extern "C" fn vowherunga_truth_word(a: Word) -> u8
    ensures { result ≡ code (truth_bit (truth_of (vector_of 64 (single a)))) }
{
    u8::from(LogicBit::from(narrow::truth(a)))
}

// `narrow::compare` by `is_equal`
#[unsafe(no_mangle)]
pub extern "C" fn vowherunga_is_equal_word(a: Word, b: Word) -> u8
    ensures { result ≡ code (compared Equal (plain64 a) (plain64 b)) }
{
    u8::from(narrow::compare(Comparison::Equal, a, b))
}

// `narrow::compare` by `case_eq`
#[unsafe(no_mangle)]
pub extern "C" fn vowherunga_case_eq_word(a: Word, b: Word) -> u8
    ensures { result ≡ code (compared CaseEqual (plain64 a) (plain64 b)) }
{
    u8::from(narrow::compare(Comparison::CaseEqual, a, b))
}

// `narrow::compare` by `casez_eq`
#[unsafe(no_mangle)]
pub extern "C" fn vowherunga_casez_eq_word(a: Word, b: Word) -> u8
    ensures { result ≡ code (compared CasezEqual (plain64 a) (plain64 b)) }
{
    u8::from(narrow::compare(Comparison::CasezEqual, a, b))
}

// `narrow::compare` by `casex_eq`
#[unsafe(no_mangle)]
pub extern "C" fn vowherunga_casex_eq_word(a: Word, b: Word) -> u8
    ensures { result ≡ code (compared CasexEqual (plain64 a) (plain64 b)) }
{
    u8::from(narrow::compare(Comparison::CasexEqual, a, b))
}

// `narrow::compare` by `wildcard_eq`
#[unsafe(no_mangle)]
pub extern "C" fn vowherunga_wildcard_eq_word(a: Word, b: Word) -> u8
    ensures { result ≡ code (compared WildcardEqual (plain64 a) (plain64 b)) }
{
    u8::from(narrow::compare(Comparison::WildcardEqual, a, b))
}
