//! Which values meet a relation.
ghost use Rattle.std.specs.Prelude.{◌≡◌};
ghost use Rattle.shown_rows.specs.Comparisons as spec;

use graph_model::Val;
use ngql_syntax::Rel;
use std::cmp::Ordering;

/// Whether two values meet the relation.
pub fn meets(rel: Rel, a: &Val, b: &Val) -> bool
    ensures { result ≡ spec.meets rel a.now b.now }
{
    match (a, b) {
        (Val::Int(a), Val::Int(b)) => orders_meet(rel, a.cmp(b)),
        (Val::Words(a), Val::Words(b)) => orders_meet(rel, a.as_slice().cmp(b.as_slice())),
        (Val::Flag(a), Val::Flag(b)) => flags_meet(rel, a.cmp(b)),
        _ => false,
    }
}

fn orders_meet(rel: Rel, order: Ordering) -> bool
    ensures { result ≡ spec.orders_meet rel order }
{
    match rel {
        Rel::Eq => order.is_eq(),
        Rel::Ne => order.is_ne(),
        Rel::Lt => order.is_lt(),
        Rel::Le => order.is_le(),
        Rel::Gt => order.is_gt(),
        Rel::Ge => order.is_ge(),
    }
}

fn flags_meet(rel: Rel, order: Ordering) -> bool
    ensures { result ≡ spec.flags_meet rel order }
{
    match rel {
        Rel::Eq => order.is_eq(),
        Rel::Ne => order.is_ne(),
        _ => false,
    }
}
