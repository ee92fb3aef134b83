//! The call of a statement.
ghost use Rattle.std.specs.Prelude.{◌≡◌, IfOk};
ghost use Rattle.first_script.specs.Works as works;

use crate::statement::Statement;
use first_graph::{EdgeId, Op, Query, Row, Types, Val};
use lists::NoMemory;
use std::alloc::Global;

/// The edge type `follow`.
const FOLLOW: i32 = 1;

/// The one call of a statement. Refused for want of memory alone.
pub fn op_of(alloc: Global, statement: &Statement) -> Result<Op, NoMemory>
    ensures { IfOk result (λ op. op ≡ works.op_of statement.now) }
{
    match *statement {
        Statement::Insert { src, dst, degree } => {
            let mut row = Row::with_capacity(alloc, 1)?;
            row.push(Val::Int(degree))?;
            let edge = EdgeId {
                src,
                etype: FOLLOW,
                rank: 0,
                dst,
            };
            Ok(Op::PutEdge(edge, row, false))
        }
        Statement::Out(vid) => Ok(Op::Read(Query::Out(vid, Types::from_slice(alloc, &[FOLLOW])?))),
        Statement::In(vid) => Ok(Op::Read(Query::In(vid, Types::from_slice(alloc, &[FOLLOW])?))),
    }
}
