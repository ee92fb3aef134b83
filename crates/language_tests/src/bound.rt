//! What a schema makes of statements: edge types, tags and columns by their numbers.
use crate::page::Page;
use crate::show::Show;
use graph_model::{Op, Query};
use lists::Text;
use schema_book::{BookRefused, Bound, Expr, FetchPlan, GoPlan, Made, Step};

impl Show for Op {
    fn show(&self, page: &mut Page) {
        match self {
            Op::PutEdges(rows, absent) => {
                page.put(b"put ");
                page.put_if(*absent, b"if absent ");
                page.list(rows.as_slice());
            }
            Op::DelEdges(edges) => {
                page.put(b"del ");
                page.list(edges.as_slice());
            }
            Op::PutVertex(vid, tag, row, absent) => {
                page.put(b"put ");
                page.put_if(*absent, b"if absent ");
                page.number(*tag);
                page.put(b" ");
                vid.show(page);
                row.show(page);
            }
            Op::DelVertex(vid) => {
                page.put(b"del ");
                vid.show(page);
            }
            Op::Read(query) => query.show(page),
        }
    }
}

impl Show for Query {
    fn show(&self, page: &mut Page) {
        match self {
            Query::Tag(vid, tag) => {
                page.number(*tag);
                page.put(b" ");
                vid.show(page);
            }
            Query::Edge(edge) => edge.show(page),
            _ => page.put(b"the edges of a vertex"),
        }
    }
}

impl Show for i32 {
    fn show(&self, page: &mut Page) {
        page.number(*self);
    }
}

/// A column: the number of its tag or edge type, and its place there, from 0.
impl Show for (u32, usize) {
    fn show(&self, page: &mut Page) {
        page.number(self.0);
        page.put(b".");
        page.number(self.1);
    }
}

impl Show for Expr {
    fn show(&self, page: &mut Page) {
        match self {
            Expr::Src => page.put(b"src"),
            Expr::Dst => page.put(b"dst"),
            Expr::Rank => page.put(b"rank"),
            Expr::Id => page.put(b"id"),
            Expr::Label => page.put(b"type"),
            Expr::Prop(places) => {
                page.put(b"column");
                page.each(b" ", places.as_slice());
            }
        }
    }
}

impl Show for Step {
    fn show(&self, page: &mut Page) {
        match self {
            Step::Test(expr, rel, val) => {
                expr.show(page);
                rel.show(page);
                val.show(page);
            }
            Step::Not => page.put(b"not"),
            Step::And => page.put(b"and"),
            Step::Or => page.put(b"or"),
        }
    }
}

impl Show for FetchPlan {
    fn show(&self, page: &mut Page) {
        page.put(b"read ");
        page.list(self.reads.as_slice());
        page.put(b" yield ");
        page.list(self.shown.as_slice());
    }
}

impl Show for GoPlan {
    fn show(&self, page: &mut Page) {
        page.put(b"go ");
        page.number(self.steps);
        page.put(b" from ");
        page.list(self.start.as_slice());
        page.put(b" over");
        page.each(b" ", self.types.as_slice());
        self.way.show(page);
        if let Some(steps) = &self.keep {
            page.put(b" where ");
            page.list(steps.as_slice());
        }
        page.put(b" yield ");
        page.list(self.shown.as_slice());
    }
}

impl Show for Bound {
    fn show(&self, page: &mut Page) {
        match self {
            Bound::Calls(ops) => {
                page.put(b"calls");
                page.each(b"; ", ops.as_slice());
            }
            Bound::Fetch(plan) => plan.show(page),
            Bound::Go(plan) => plan.show(page),
        }
    }
}

impl Show for Made {
    fn show(&self, page: &mut Page) {
        match self {
            Made::New(number) => {
                page.put(b"new ");
                page.number(*number);
            }
            Made::Already => page.put(b"already"),
        }
    }
}

/// Puts a refusal with a name at the end.
fn put_named(page: &mut Page, why: &[u8], name: &Text) {
    page.put(why);
    page.put(b" ");
    page.put(name.as_slice());
}

impl Show for BookRefused {
    fn show(&self, page: &mut Page) {
        match self {
            BookRefused::NoSpace => page.put(b"space"),
            BookRefused::OneSpace => page.put(b"spaces 1"),
            BookRefused::NoSuchName(name) => put_named(page, b"name", name),
            BookRefused::NameTaken(name) => put_named(page, b"taken", name),
            BookRefused::WrongType(name) => put_named(page, b"type", name),
            BookRefused::WrongCount(at) => page.refusal(b"count AT", *at),
            BookRefused::NotSet(name) => put_named(page, b"unset", name),
            BookRefused::LongId(at) => page.refusal(b"vid AT", *at),
            BookRefused::TooMany(at) => page.refusal(b"many AT", *at),
            BookRefused::NoMemory => page.put(b"memory"),
        }
    }
}
