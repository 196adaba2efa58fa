// And, or, xor, merge and not, into lent planes.
#![tactic(auto)]

ghost use Rattle.std.specs.Prelude.{◌≡◌};
ghost use Rattle.refusal.specs.Outcome.{outcome, answer};
ghost use Rattle.words.specs.Planes.{lent_by};
ghost use Rattle.lanes.specs.declared.Bitwise.TheVariants.{And, Or, Xor, Merge};
ghost use Rattle.bitwise.specs.Bitwise.{join_vectors, bitwise_not};

use bitwise_words::result_header;
use bitwise_words::unchecked::{join_planes, not_planes};
use lanes::Bitwise;
use refusal::Refusal;
use value::{Header, check_output, check_vector};

// The operator on two vectors of any widths, into planes of the larger width.
#[tactic(auto, using(value::proofs::Checks::vector_accepted), unfolding(value::specs::Checks::check_output))]
fn join_vectors(
    op: Bitwise,
    a: Header,
    av: &[u64],
    au: &[u64],
    b: Header,
    bv: &[u64],
    bu: &[u64],
    ov: &mut [u64],
    ou: &mut [u64],
) -> Result<Header, Refusal>
    ensures { outcome (answer result) (lent_by ov.new ou.new)
        ≡ join_vectors op a (lent_by av.now au.now) b (lent_by bv.now bu.now) (lent_by ov.old ou.old) }
{
    check_vector(a, av, au)?;
    check_vector(b, bv, bu)?;
    let h = result_header(op, a, b);
    check_output(h.width, ov, ou)?;
    join_planes(op, a, av, au, b, bv, bu, h.width, ov, ou);
    Ok(h)
}

// 0 at a place where either has 0, 1 where both have 1, else x.
pub fn bitwise_and(
    a: Header,
    av: &[u64],
    au: &[u64],
    b: Header,
    bv: &[u64],
    bu: &[u64],
    ov: &mut [u64],
    ou: &mut [u64],
) -> Result<Header, Refusal>
    ensures { outcome (answer result) (lent_by ov.new ou.new)
        ≡ join_vectors And a (lent_by av.now au.now) b (lent_by bv.now bu.now) (lent_by ov.old ou.old) }
{
    join_vectors(Bitwise::And, a, av, au, b, bv, bu, ov, ou)
}

// 1 at a place where either has 1, 0 where both have 0, else x.
pub fn bitwise_or(
    a: Header,
    av: &[u64],
    au: &[u64],
    b: Header,
    bv: &[u64],
    bu: &[u64],
    ov: &mut [u64],
    ou: &mut [u64],
) -> Result<Header, Refusal>
    ensures { outcome (answer result) (lent_by ov.new ou.new)
        ≡ join_vectors Or a (lent_by av.now au.now) b (lent_by bv.now bu.now) (lent_by ov.old ou.old) }
{
    join_vectors(Bitwise::Or, a, av, au, b, bv, bu, ov, ou)
}

// x at a place where either is unknown, else whether they differ.
pub fn bitwise_xor(
    a: Header,
    av: &[u64],
    au: &[u64],
    b: Header,
    bv: &[u64],
    bu: &[u64],
    ov: &mut [u64],
    ou: &mut [u64],
) -> Result<Header, Refusal>
    ensures { outcome (answer result) (lent_by ov.new ou.new)
        ≡ join_vectors Xor a (lent_by av.now au.now) b (lent_by bv.now bu.now) (lent_by ov.old ou.old) }
{
    join_vectors(Bitwise::Xor, a, av, au, b, bv, bu, ov, ou)
}

// The bit at a place where both have it and know it, else x.
pub fn merge_unknown(
    a: Header,
    av: &[u64],
    au: &[u64],
    b: Header,
    bv: &[u64],
    bu: &[u64],
    ov: &mut [u64],
    ou: &mut [u64],
) -> Result<Header, Refusal>
    ensures { outcome (answer result) (lent_by ov.new ou.new)
        ≡ join_vectors Merge a (lent_by av.now au.now) b (lent_by bv.now bu.now) (lent_by ov.old ou.old) }
{
    join_vectors(Bitwise::Merge, a, av, au, b, bv, bu, ov, ou)
}

// 0 and 1 exchanged; x and z give x.
#[tactic(auto, using(value::proofs::Checks::vector_accepted), unfolding(value::specs::Checks::check_output))]
pub fn bitwise_not(
    a: Header,
    av: &[u64],
    au: &[u64],
    ov: &mut [u64],
    ou: &mut [u64],
) -> Result<Header, Refusal>
    ensures { outcome (answer result) (lent_by ov.new ou.new)
        ≡ bitwise_not a (lent_by av.now au.now) (lent_by ov.old ou.old) }
{
    check_vector(a, av, au)?;
    check_output(a.width, ov, ou)?;
    not_planes(a.width, av, au, ov, ou);
    Ok(Header {
        width: a.width,
        is_signed: a.is_signed,
        is_fill: false,
    })
}
