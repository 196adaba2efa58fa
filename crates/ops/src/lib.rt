// The ops of a step list: how each is worked out, how many cells it names, which arms it refuses, the header of its result, and its code.
#![tactic(auto)]

ghost use Rattle.std.specs.Prelude.{◌≡◌};
ghost use Rattle.ops.specs.Ops.{family_of, operands, uses, arms_refused, op_header};
ghost use Rattle.ops.specs.Names.{op_of};

use compare_words::Comparison;
use lanes::Bitwise;
use value::Header;

pub mod unchecked;

// The ops of a step list.
#[derive(Clone, Copy)]
pub enum Op {
    And,
    Or,
    Xor,
    Not,
    Merge,
    ReduceAnd,
    ReduceOr,
    ReduceXor,
    Equal,
    CaseEqual,
    CasezEqual,
    CasexEqual,
    WildcardEqual,
    LogicAnd,
    LogicOr,
    Select,
    Insert,
}

// One step of a list: its op, and three numbers, of which the first are the cells that the op names; insert takes c as its position.
#[derive(Clone, Copy)]
pub struct Step {
    pub op: Op,
    pub a: u32,
    pub b: u32,
    pub c: u32,
}

// What an op asks whose result is one bit.
#[derive(Clone, Copy)]
pub enum Question {
    ReduceAnd,
    ReduceOr,
    ReduceXor,
    Compare(Comparison),
    LogicAnd,
    LogicOr,
}

// The ops by how they are worked out.
#[derive(Clone, Copy)]
pub enum Family {
    Join(Bitwise),
    Not,
    Answer(Question),
    Select,
    Insert,
}

// How an op is worked out: the one place that tells all ops apart.
pub fn family_of(op: Op) -> Family
    ensures { result ≡ family_of op }
{
    match op {
        Op::And => Family::Join(Bitwise::And),
        Op::Or => Family::Join(Bitwise::Or),
        Op::Xor => Family::Join(Bitwise::Xor),
        Op::Not => Family::Not,
        Op::Merge => Family::Join(Bitwise::Merge),
        Op::ReduceAnd => Family::Answer(Question::ReduceAnd),
        Op::ReduceOr => Family::Answer(Question::ReduceOr),
        Op::ReduceXor => Family::Answer(Question::ReduceXor),
        Op::Equal => Family::Answer(Question::Compare(Comparison::Equal)),
        Op::CaseEqual => Family::Answer(Question::Compare(Comparison::CaseEqual)),
        Op::CasezEqual => Family::Answer(Question::Compare(Comparison::CasezEqual)),
        Op::CasexEqual => Family::Answer(Question::Compare(Comparison::CasexEqual)),
        Op::WildcardEqual => Family::Answer(Question::Compare(Comparison::WildcardEqual)),
        Op::LogicAnd => Family::Answer(Question::LogicAnd),
        Op::LogicOr => Family::Answer(Question::LogicOr),
        Op::Select => Family::Select,
        Op::Insert => Family::Insert,
    }
}

// How many cells an op names; the position of insert is none.
pub fn operand_count(op: Op) -> usize
    ensures { result ≡ operands op }
{
    match family_of(op) {
        Family::Join(_) => 2,
        Family::Not => 1,
        Family::Answer(q) => match q {
            Question::ReduceAnd | Question::ReduceOr | Question::ReduceXor => 1,
            Question::Compare(_) | Question::LogicAnd | Question::LogicOr => 2,
        },
        Family::Select => 3,
        Family::Insert => 2,
    }
}

// How many of a step's numbers a, b and c an op uses, the first ones: the cells that it names, and the position of insert.
pub fn number_count(op: Op) -> usize
    ensures { result ≡ uses op }
{
    match family_of(op) {
        Family::Join(_) | Family::Not | Family::Answer(_) | Family::Select => operand_count(op),
        Family::Insert => 3,
    }
}

// Whether an op refuses its arms: their widths differ, or one is a fill. Only select has any.
pub fn arms_refused(op: Op, b: Header, c: Header) -> bool
    ensures { result ≡ arms_refused op b c }
{
    match family_of(op) {
        Family::Join(_) | Family::Not | Family::Answer(_) | Family::Insert => false,
        Family::Select => (b.width != c.width) | b.is_fill | c.is_fill,
    }
}

// The header of an op's result.
pub fn result_header(op: Op, a: Header, b: Header, c: Header) -> Header
    ensures { result ≡ op_header op a b c }
{
    match family_of(op) {
        Family::Join(j) => bitwise_words::result_header(j, a, b),
        Family::Not => Header {
            width: a.width,
            is_signed: a.is_signed,
            is_fill: false,
        },
        Family::Answer(_) => value::plain_header(1),
        Family::Select => Header {
            width: b.width,
            is_signed: b.is_signed & c.is_signed,
            is_fill: false,
        },
        Family::Insert => a,
    }
}

// The op that has a code in the exports. The places of the table are the codes; the entry of a retired code is `None`.
pub fn op_of(code: u8) -> Option<Op>
    ensures { result ≡ op_of code }
{
    let table = [
        Some(Op::And),
        Some(Op::Or),
        Some(Op::Xor),
        Some(Op::Not),
        Some(Op::Merge),
        Some(Op::ReduceAnd),
        Some(Op::ReduceOr),
        Some(Op::ReduceXor),
        Some(Op::Equal),
        Some(Op::CaseEqual),
        Some(Op::CasezEqual),
        Some(Op::CasexEqual),
        Some(Op::WildcardEqual),
        Some(Op::LogicAnd),
        Some(Op::LogicOr),
        Some(Op::Select),
        Some(Op::Insert),
    ];
    if code < 17 {
        table[code as usize]
    } else {
        None
    }
}
