// The work behind the operators: fills are settled first, then words joined by lanes, straight from the planes where both operands have
// whole words, and through the reader of extended operands behind those. These ask their caller for accepted operands.
ghost use Rattle.std.specs.Prelude.{◌≡◌, ◌≤◌, max, length};
ghost use Rattle.words.specs.Vector.{FilledTo};
ghost use Rattle.words.specs.Planes.{word_count, from_planes, lent_by, planes_of, Plane};
ghost use Rattle.value.specs.Checks.{vector};
ghost use Rattle.extension.specs.Extension.{Covers};
ghost use Rattle.bitwise_words.specs.Joined.{joined_word, joined_over, joined, inverted, inverted_planes};

use extension::Extent;
use extension::unchecked::extent;
use lanes::{Bitwise, lanes, not_lanes};
use value::Header;
use words::Word;
use words::unchecked::{kept, least, ones, operand_word};

// One operator on the first n words.
fn join_words(
    op: Bitwise,
    av: &[u64],
    au: &[u64],
    bv: &[u64],
    bu: &[u64],
    ov: &mut [u64],
    ou: &mut [u64],
    n: usize,
)
    requires n_in_bounds { (n ≤ length av.now) × (n ≤ length au.now) }
    requires n_in_bounds_2 { (n ≤ length bv.now) × (n ≤ length bu.now) }
    requires n_in_bounds_3 { (n ≤ length ov.old) × (n ≤ length ou.old) }
    ensures filled_to { FilledTo 0
        (λ k. (joined_word op (lent_by av.now au.now) (lent_by bv.now bu.now) k).value)
        (length ov.old) n ov.new }
    ensures filled_to_2 { FilledTo 0
        (λ k. (joined_word op (lent_by av.now au.now) (lent_by bv.now bu.now) k).unknown)
        (length ou.old) n ou.new }
{
    for k in 0..n {
        let a = Word {
            value: av[k],
            unknown: au[k],
        };
        let b = Word {
            value: bv[k],
            unknown: bu[k],
        };
        let r = lanes(op, a, b);
        ov[k] = r.value;
        ou[k] = r.unknown;
    }
}

// The first n words, straight from the planes. Each operator has its call, so that its loop is compiled on its own.
fn join_whole(
    op: Bitwise,
    av: &[u64],
    au: &[u64],
    bv: &[u64],
    bu: &[u64],
    ov: &mut [u64],
    ou: &mut [u64],
    n: usize,
)
    requires n_in_bounds { (n ≤ length av.now) × (n ≤ length au.now) }
    requires n_in_bounds_2 { (n ≤ length bv.now) × (n ≤ length bu.now) }
    requires n_in_bounds_3 { (n ≤ length ov.old) × (n ≤ length ou.old) }
    ensures filled_to { FilledTo 0
        (λ k. (joined_word op (lent_by av.now au.now) (lent_by bv.now bu.now) k).value)
        (length ov.old) n ov.new }
    ensures filled_to_2 { FilledTo 0
        (λ k. (joined_word op (lent_by av.now au.now) (lent_by bv.now bu.now) k).unknown)
        (length ou.old) n ou.new }
{
    match op {
        Bitwise::And => join_words(Bitwise::And, av, au, bv, bu, ov, ou, n),
        Bitwise::Or => join_words(Bitwise::Or, av, au, bv, bu, ov, ou, n),
        Bitwise::Xor => join_words(Bitwise::Xor, av, au, bv, bu, ov, ou, n),
        Bitwise::Merge => join_words(Bitwise::Merge, av, au, bv, bu, ov, ou, n),
    }
}

// The operator on two settled operands, at a width that neither passes. The bits of each are those of its planes below its extent's width,
// and the extent's bit at each place from there on.
fn join_extents(
    op: Bitwise,
    x: Extent,
    av: &[u64],
    au: &[u64],
    y: Extent,
    bv: &[u64],
    bu: &[u64],
    width: u32,
    ov: &mut [u64],
    ou: &mut [u64],
)
    requires covers { Covers x (lent_by av.now au.now) }
    requires covers_2 { Covers y (lent_by bv.now bu.now) }
    requires width_le_width { (x.width ≤ width) × (y.width ≤ width) }
    requires ov_len { (length ov.old ≡ word_count width) × (length ou.old ≡ word_count width) }
    ensures { lent_by ov.new ou.new
        ≡ planes_of (joined_over op width x (lent_by av.now au.now) y (lent_by bv.now bu.now)) }
{
    let xb = x.beyond;
    let yb = y.beyond;
    let whole = least(x.width as usize, y.width as usize) / 64;
    join_whole(op, av, au, bv, bu, ov, ou, whole);
    for k in whole..ov.len() {
        let p = operand_word(av, au, x.width, k, xb);
        let q = operand_word(bv, bu, y.width, k, yb);
        let r = lanes(op, p, q);
        let m = ones(kept(width, k));
        ov[k] = r.value & m;
        ou[k] = r.unknown & m;
    }
}

// The operator on two accepted operands: settles their fills, as each is read beside the other, and joins what it then has.
#[tactic(auto, using(crate::proofs::Operands::settled_joined))]
pub fn join_planes(
    op: Bitwise,
    a: Header,
    av: &[u64],
    au: &[u64],
    b: Header,
    bv: &[u64],
    bu: &[u64],
    width: u32,
    ov: &mut [u64],
    ou: &mut [u64],
)
    requires plane { Plane a.width av.now × Plane a.width au.now }
    requires plane_2 { Plane b.width bv.now × Plane b.width bu.now }
    requires width_value { width ≡ max a.width b.width }
    requires ov_len { (length ov.old ≡ word_count width) × (length ou.old ≡ word_count width) }
    ensures { lent_by ov.new ou.new
        ≡ planes_of
        (joined op (vector a (lent_by av.now au.now)) (vector b (lent_by bv.now bu.now))) }
{
    let x = extent(a, av, au, b);
    let y = extent(b, bv, bu, a);
    join_extents(op, x, av, au, y, bv, bu, width, ov, ou)
}

// Not of a vector: every word, the last one cut off at the width. By words, and by bits.
pub fn not_planes(width: u32, av: &[u64], au: &[u64], ov: &mut [u64], ou: &mut [u64])
    requires plane { Plane width av.now × Plane width au.now }
    requires ov_len { (length ov.old ≡ word_count width) × (length ou.old ≡ word_count width) }
    ensures ou_value { lent_by ov.new ou.new ≡ inverted_planes width (lent_by av.now au.now) }
    ensures ou_value_2 { lent_by ov.new ou.new
        ≡ planes_of (inverted (from_planes width av.now au.now)) }
{
    let last = ov.len() - 1;
    for k in 0..last {
        let a = Word {
            value: av[k],
            unknown: au[k],
        };
        let r = not_lanes(a, 0xffff_ffff_ffff_ffff);
        ov[k] = r.value;
        ou[k] = r.unknown;
    }
    let a = Word {
        value: av[last],
        unknown: au[last],
    };
    let r = not_lanes(a, ones(kept(width, last)));
    ov[last] = r.value;
    ou[last] = r.unknown;
}
