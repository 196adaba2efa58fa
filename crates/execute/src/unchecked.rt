// The ops worked out, and a planned step. These ask their caller for accepted operands and for room.
ghost use Rattle.std.specs.Prelude.{◌≡◌, true, false, ◌≤◌, length};
ghost use Rattle.words.specs.Planes.{word_count, lent_by, planes_of, Plane};
ghost use Rattle.value.specs.Checks.{vector};
ghost use Rattle.ops.specs.Ops.{arms_refused, op_header, answer_bit, op_bits};
ghost use Rattle.cells.specs.Cells.{cell_agrees, put_planes};
ghost use Rattle.cells.specs.Places.{fields_by};
ghost use Rattle.execute.specs.Executed.{op_cells, lent_memory_by, Executable, executed};

use crate::Operands;
use bit::LogicBit;
use bitwise_words::unchecked::{join_planes, not_planes};
use cells::unchecked::{cell_at, cell_words, copy_behind};
use compare_words::unchecked::compare;
use lanes::Bitwise;
use ops::{Family, Op, Question};
use plan::PlannedStep;
use reduce_words::Truth;
use reduce_words::unchecked::{and_bits, truth, xor_bits};
use value::Header;
use words::unchecked::{copy_front, filled, operand_word};
use words::word_count;

// Copies the words of a plane into another of the same length.
fn copy_words(from: &[u64], to: &mut [u64])
    requires { length to.old ≡ length from.now }
    ensures { to.new ≡ from.now }
{
    copy_front(to, from, to.len())
}

// The bit that is the answer.
fn answer(
    q: Question,
    a: Header,
    av: &[u64],
    au: &[u64],
    b: Header,
    bv: &[u64],
    bu: &[u64],
) -> LogicBit
    requires plane { Plane a.width av.now × Plane a.width au.now }
    requires plane_2 { Plane b.width bv.now × Plane b.width bu.now }
    ensures { result
        ≡ answer_bit q (vector a (lent_by av.now au.now)) (vector b (lent_by bv.now bu.now)) }
{
    match q {
        Question::ReduceAnd => and_bits(a.width, av, au),
        Question::ReduceOr => LogicBit::from(truth(a.width, av, au)),
        Question::ReduceXor => xor_bits(a.width, av, au),
        Question::Compare(op) => compare(op, a, av, au, b, bv, bu),
        Question::LogicAnd => {
            let x = LogicBit::from(truth(a.width, av, au));
            let y = LogicBit::from(truth(b.width, bv, bu));
            bit::and(x, y)
        }
        Question::LogicOr => {
            let x = LogicBit::from(truth(a.width, av, au));
            let y = LogicBit::from(truth(b.width, bv, bu));
            bit::or(x, y)
        }
    }
}

// The op on accepted operands; one that it does not name may be any. A select is the arm that its truth names, and merges both only where
// the truth is unknown; an insert puts the lowest bits of b into a, from `pos` on.
fn work(
    op: Op,
    a: Header,
    av: &[u64],
    au: &[u64],
    b: Header,
    bv: &[u64],
    bu: &[u64],
    c: Header,
    cv: &[u64],
    cu: &[u64],
    pos: usize,
    ov: &mut [u64],
    ou: &mut [u64],
)
    requires plane { Plane a.width av.now × Plane a.width au.now }
    requires plane_2 { Plane b.width bv.now × Plane b.width bu.now }
    requires plane_3 { Plane c.width cv.now × Plane c.width cu.now }
    requires c_value { arms_refused op b c ≡ false }
    requires ov_len { (length ov.old ≡ word_count (op_header op a b c).width)
        × (length ou.old ≡ word_count (op_header op a b c).width) }
    ensures { lent_by ov.new ou.new
        ≡ planes_of
        (op_bits op (vector a (lent_by av.now au.now)) (vector b (lent_by bv.now bu.now))
        (vector c (lent_by cv.now cu.now)) pos) }
{
    match ops::family_of(op) {
        Family::Join(j) => {
            let width = extension::larger(a.width, b.width);
            join_planes(j, a, av, au, b, bv, bu, width, ov, ou)
        }
        Family::Not => not_planes(a.width, av, au, ov, ou),
        Family::Answer(q) => {
            let x = filled(answer(q, a, av, au, b, bv, bu));
            ov[0] = x.value % 2;
            ou[0] = x.unknown % 2;
        }
        Family::Select => match truth(a.width, av, au) {
            Truth::True => {
                copy_words(bv, ov);
                copy_words(bu, ou);
            }
            Truth::False => {
                copy_words(cv, ov);
                copy_words(cu, ou);
            }
            Truth::Unknown => join_planes(Bitwise::Merge, b, bv, bu, c, cv, cu, b.width, ov, ou),
        },
        Family::Insert => {
            let n = b.width as usize;
            let bits = operand_word(bv, bu, b.width, 0, LogicBit::Zero);
            copy_words(av, ov);
            copy_words(au, ou);
            bits::unchecked::splice64(a.width, ov, ou, pos, bits, n)
        }
    }
}

// The op on three cells, its result of the header h put in the first words of two planes.
fn work_cells(
    op: Op,
    o: Operands,
    h: Header,
    pos: usize,
    av: &[u64],
    au: &[u64],
    ov: &mut [u64],
    ou: &mut [u64],
)
    requires av_len { length av.now ≡ length au.now }
    requires a_value { cell_agrees (lent_by av.now au.now) o.a.start o.a ≡ true }
    requires b_value { cell_agrees (lent_by av.now au.now) o.b.start o.b ≡ true }
    requires c_value { cell_agrees (lent_by av.now au.now) o.c.start o.c ≡ true }
    requires header_value { arms_refused op o.b.header o.c.header ≡ false }
    requires h_value { h ≡ op_header op o.a.header o.b.header o.c.header }
    requires width_in_bounds { (word_count h.width ≤ length ov.old) × (word_count h.width ≤ length ou.old) }
    ensures { lent_by ov.new ou.new
        ≡ put_planes 0 (planes_of (op_cells op o pos (lent_by av.now au.now)).bits)
        (lent_by ov.old ou.old) }
{
    let n = word_count(h.width);
    let xv = cell_words(o.a, av);
    let xu = cell_words(o.a, au);
    let yv = cell_words(o.b, av);
    let yu = cell_words(o.b, au);
    let zv = cell_words(o.c, av);
    let zu = cell_words(o.c, au);
    work(
        op,
        o.a.header,
        xv,
        xu,
        o.b.header,
        yv,
        yu,
        o.c.header,
        zv,
        zu,
        pos,
        &mut ov[..n],
        &mut ou[..n],
    );
}

// Works a planned step out on the cells at the places that it names, and copies the result from the scratch planes behind the last cell.
pub fn execute<'a>(
    p: PlannedStep,
    starts: &'a [usize; 320],
    widths: &'a [u32; 320],
    signs: &'a [bool; 320],
    fills: &'a [bool; 320],
    av: &mut [u64],
    au: &mut [u64],
    sv: &mut [u64],
    su: &mut [u64],
)
    requires { Executable p (fields_by starts.now widths.now signs.now fills.now) (lent_memory_by av.old au.old sv.old su.old) }
    ensures { lent_memory_by av.new au.new sv.new su.new
        ≡ executed p (fields_by starts.now widths.now signs.now fills.now)
        (lent_memory_by av.old au.old sv.old su.old) }
{
    let o = Operands {
        a: cell_at(p.a, starts, widths, signs, fills),
        b: cell_at(p.b, starts, widths, signs, fills),
        c: cell_at(p.c, starts, widths, signs, fills),
    };
    let op = p.op;
    let h = p.header;
    work_cells(op, o, h, p.pos, av, au, sv, su);
    copy_behind(p.start, word_count(h.width), sv, su, av, au)
}
