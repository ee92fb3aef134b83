//! What a statement binds to: calls, or reads with what they show, or a walk.
use graph_model::{Op, Query, Types, Val, Vid};
use lists::Listed;
use ngql_syntax::{Rel, Way};

/// Operations, in order; each is a call.
pub type Ops = Listed<Op>;

/// Queries, in order.
pub type Queries = Listed<Query>;

/// Ids of vertices, in order.
pub type Vids = Listed<Vid>;

/// Columns: each the number of a tag or an edge type, and the place of a column of it, from 0.
pub type Places = Listed<(u32, usize)>;

/// What is shown of a vertex or an edge, or compared.
#[derive(Drop)]
pub enum Expr {
    /// The source of the edge.
    Src,
    /// The destination of the edge.
    Dst,
    /// The rank of the edge.
    Rank,
    /// The id of the vertex.
    Id,
    /// The name of the edge's type, which the book keeps.
    Label,
    /// The value of the column that stands there for the edge's type or the vertex's tag, and null where none does.
    Prop(Places),
}

/// What is shown, in order.
pub type Exprs = Listed<Expr>;

/// A step of a condition.
#[derive(Drop)]
pub enum Step {
    /// Puts the answer of a comparison.
    Test(Expr, Rel, Val),
    /// Takes an answer and puts the other one.
    Not,
    /// Takes two answers and puts whether both are true.
    And,
    /// Takes two answers and puts whether one of them is true.
    Or,
}

/// A condition: steps over a stack of answers.
pub type Cond = Listed<Step>;

/// Reads, and what is shown of each.
#[derive(Drop)]
pub struct FetchPlan {
    /// The reads, in order.
    pub reads: Queries,
    /// What is shown.
    pub shown: Exprs,
}

/// A walk.
#[derive(Drop)]
pub struct GoPlan {
    /// The number of steps.
    pub steps: u32,
    /// The ids from which it starts.
    pub start: Vids,
    /// The edge types that it follows.
    pub types: Types,
    /// Which way.
    pub way: Way,
    /// What the edges of the last step have to meet.
    pub keep: Option<Cond>,
    /// What is shown.
    pub shown: Exprs,
}

/// What a statement binds to.
#[derive(Drop)]
pub enum Bound {
    /// Calls, one after another.
    Calls(Ops),
    /// Reads.
    Fetch(FetchPlan),
    /// A walk.
    Go(GoPlan),
}
