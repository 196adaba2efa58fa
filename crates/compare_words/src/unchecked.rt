// One scan of words for all comparisons, straight from the planes while both operands have whole words, and
// through the reader of extended operands from there. These ask their caller for operands that were checked.
ghost use Rattle.std.specs.Prelude.{◌≡◌, ℕ, ◌*◌, ◌≤◌, ◌<◌, length};
ghost use Rattle.words.specs.Planes.{word_at, lent_by, Plane};
ghost use Rattle.value.specs.Checks.{vector};
ghost use Rattle.extension.specs.Extension.{extent_at, Covers};
ghost use Rattle.compare_words.specs.Compared.{decided, places, found, compared, places_over, word_places, marks_of, cut_marks, unlike};

use crate::{Comparison, Found};
use bit::LogicBit;
use extension::Extent;
use value::Header;
use words::Word;
use words::unchecked::{kept, least, ones, operand_word};

// The 64 places of a word of each operand: a one where they mismatch, and a one where an unknown bit leaves the answer in doubt.
#[derive(Clone, Copy)]
struct Marks {
    apart: u64,
    doubt: u64,
}

// The places of one word of each operand.
fn lane_marks(op: Comparison, a: Word, b: Word) -> Marks
    ensures { result ≡ marks_of op a b }
{
    let av = a.value;
    let au = a.unknown;
    let bv = b.value;
    let bu = b.unknown;
    let differ = (av ^ bv) & !(au | bu);
    match op {
        Comparison::Equal => Marks {
            apart: differ,
            doubt: au | bu,
        },
        Comparison::CaseEqual => Marks {
            apart: (av ^ bv) | (au ^ bu),
            doubt: 0,
        },
        Comparison::CasezEqual => Marks {
            apart: ((av ^ bv) | (au ^ bu)) & !((av & au) | (bv & bu)),
            doubt: 0,
        },
        Comparison::CasexEqual => Marks {
            apart: differ,
            doubt: 0,
        },
        Comparison::WildcardEqual => Marks {
            apart: differ,
            doubt: au & !bu,
        },
    }
}

// Compares two operands of at most 64 bits, extended to the width already, each in one word.
pub fn compare_words(op: Comparison, a: Word, b: Word, width: u32) -> LogicBit
    requires { width ≤ 64 }
    ensures { result ≡ decided op (word_places width a b) }
{
    let r = lane_marks(op, a, b);
    let m = ones(width as usize);
    if (r.apart & m) != 0 {
        LogicBit::Zero
    } else if (r.doubt & m) == 0 {
        LogicBit::One
    } else {
        LogicBit::X
    }
}

// Passes over the first n words, eight at a time, up to eight of which one differs or has an unknown bit: no comparison finds anything in
// the words passed.
fn pass_same(av: &[u64], au: &[u64], bv: &[u64], bu: &[u64], n: usize) -> usize
    requires n_in_bounds { (n ≤ length av.now) × (n ≤ length au.now) }
    requires n_in_bounds_2 { (n ≤ length bv.now) × (n ≤ length bu.now) }
    ensures { (result ≤ n)
        × ((i : ℕ) → i < result → unlike av.now au.now bv.now bu.now i ≡ 0) }
{
    for block in 0..n / 8 {
        let k = block * 8;
        let mut marks = 0;
        for j in 0..8 {
            let i = k + j;
            let m = (av[i] ^ bv[i]) | au[i] | bu[i];
            marks |= m;
        }
        if marks != 0 {
            return k;
        }
    }
    n / 8 * 8
}

// The places of word k of two operands that lie below the width. The first n words are whole in both and are read straight from the
// planes, the others through the reader of extended operands.
fn marks_at(
    op: Comparison,
    a: Extent,
    av: &[u64],
    au: &[u64],
    b: Extent,
    bv: &[u64],
    bu: &[u64],
    width: u32,
    n: usize,
    k: usize,
) -> Marks
    requires covers { Covers a (lent_by av.now au.now) × Covers b (lent_by bv.now bu.now) }
    requires n_bound { (n * 64 ≤ width) × ((n * 64 ≤ a.width) × (n * 64 ≤ b.width)) }
    ensures { result
        ≡ cut_marks width k
        (marks_of op (word_at (extent_at a (lent_by av.now au.now)) k)
        (word_at (extent_at b (lent_by bv.now bu.now)) k)) }
{
    if k < n {
        let x = Word {
            value: av[k],
            unknown: au[k],
        };
        let y = Word {
            value: bv[k],
            unknown: bu[k],
        };
        lane_marks(op, x, y)
    } else {
        let ab = a.beyond;
        let bb = b.beyond;
        let x = operand_word(av, au, a.width, k, ab);
        let y = operand_word(bv, bu, b.width, k, bb);
        let r = lane_marks(op, x, y);
        let m = ones(kept(width, k));
        Marks {
            apart: r.apart & m,
            doubt: r.doubt & m,
        }
    }
}

// Scans two operands whose fills are settled, each read by its extent, at the width. The words are scanned from the first that was not
// passed over, the bits of a word's mismatches from the lowest, and the scan is left at the first mismatch. All places that leave the
// answer open go into `doubt`, which is enough for the bit; those of the first word that has one, word `at`, are `first`.
// Document 01 names this form: nested loops, words outside and bits inside, left by the outer one's label.
pub fn scan_extents(
    op: Comparison,
    a: Extent,
    av: &[u64],
    au: &[u64],
    b: Extent,
    bv: &[u64],
    bu: &[u64],
    width: u32,
) -> Found
    requires covers { Covers a (lent_by av.now au.now) × Covers b (lent_by bv.now bu.now) }
    requires width_le_width { (a.width ≤ width) × (b.width ≤ width) }
    ensures { result
        ≡ found op (places_over width a (lent_by av.now au.now) b (lent_by bv.now bu.now)) }
{
    let n = least(a.width as usize, b.width as usize) / 64;
    let count = words::word_count(width);
    let mut doubt = 0;
    let mut first = 0;
    let mut at = 0;
    let mut mismatch = None;
    'words: for k in pass_same(av, au, bv, bu, n)..count {
        let m = marks_at(op, a, av, au, b, bv, bu, width, n, k);
        // A `while`: it goes on up to the word's first mismatch, not to a count.
        let mut bits = m.apart;
        let mut j = 0;
        while bits != 0 {
            if bits % 2 == 1 {
                mismatch = Some((k * 64 + j) as u32);
                break 'words;
            }
            bits /= 2;
            j += 1;
        }
        if doubt == 0 {
            first = m.doubt;
            at = k;
        }
        doubt |= m.doubt;
    }
    match mismatch {
        Some(i) => Found::Mismatch(i),
        None if doubt == 0 => Found::Same,
        None => Found::Unsure((at * 64) as u32 + u64::trailing_zeros(first)),
    }
}

// Scans two accepted vectors: their fills are settled, by the extent at which each is read.
pub fn scan(
    op: Comparison,
    a: Header,
    av: &[u64],
    au: &[u64],
    b: Header,
    bv: &[u64],
    bu: &[u64],
) -> Found
    requires plane { Plane a.width av.now × Plane a.width au.now }
    requires plane_2 { Plane b.width bv.now × Plane b.width bu.now }
    ensures { result
        ≡ found op (places (vector a (lent_by av.now au.now)) (vector b (lent_by bv.now bu.now))) }
{
    let x = extension::unchecked::extent(a, av, au, b);
    let y = extension::unchecked::extent(b, bv, bu, a);
    let width = extension::larger(a.width, b.width);
    scan_extents(op, x, av, au, y, bv, bu, width)
}

// The comparison of two accepted vectors: what the scan finds gives the bit.
#[tactic(auto, using(crate::proofs::Places::answer_found))]
pub fn compare(
    op: Comparison,
    a: Header,
    av: &[u64],
    au: &[u64],
    b: Header,
    bv: &[u64],
    bu: &[u64],
) -> LogicBit
    requires plane { Plane a.width av.now × Plane a.width au.now }
    requires plane_2 { Plane b.width bv.now × Plane b.width bu.now }
    ensures { result
        ≡ compared op (vector a (lent_by av.now au.now)) (vector b (lent_by bv.now bu.now)) }
{
    LogicBit::from(scan(op, a, av, au, b, bv, bu))
}
