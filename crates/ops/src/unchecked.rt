// The ops by their places among the names. This asks its caller for a place that is one.
ghost use Rattle.std.specs.Prelude.{◌≡◌, ◌<◌, get_or};
ghost use Rattle.ops.specs.declared.Op.TheVariants.{And};
ghost use Rattle.ops.specs.Names.{all_ops};

use crate::Op;

// The op at a place of the list of names, from 0: a table beside that of the codes, since the two part when an op is retired.
pub fn op_at(n: usize) -> Op
    requires { n < 17 }
    ensures { result ≡ get_or all_ops n And }
{
    let ops = [
        Op::And,
        Op::Or,
        Op::Xor,
        Op::Not,
        Op::Merge,
        Op::ReduceAnd,
        Op::ReduceOr,
        Op::ReduceXor,
        Op::Equal,
        Op::CaseEqual,
        Op::CasezEqual,
        Op::CasexEqual,
        Op::WildcardEqual,
        Op::LogicAnd,
        Op::LogicOr,
        Op::Select,
        Op::Insert,
    ];
    ops[n]
}
