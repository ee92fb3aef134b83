//! Statements as they are written: each name and literal with its place, a condition as its steps.
use crate::page::Page;
use crate::show::Show;
use ngql_parser::ParseRefused;
use ngql_syntax::{
    Column, Columns, Define, EdgeRow, Ends, GoWords, Kind, Line, Lit, PutEdges, PutVertices,
    RawExpr, RawStep, Spanned, Statement, Values, VertexRow, Way,
};
use part_keys::VidKind;

impl Show for Lit {
    fn show(&self, page: &mut Page) {
        self.val.show(page);
        page.place(self.at);
    }
}

impl Show for Spanned {
    fn show(&self, page: &mut Page) {
        page.put(self.text.as_slice());
        page.place(self.at);
    }
}

impl Show for VidKind {
    fn show(&self, page: &mut Page) {
        match self {
            VidKind::Num => page.put(b"numbers"),
            VidKind::Name(most) => {
                page.put(b"texts of ");
                page.number(*most);
            }
        }
    }
}

impl Show for Column {
    fn show(&self, page: &mut Page) {
        page.put(self.name.as_slice());
        page.put(match self.kind {
            Kind::Int => b" int",
            Kind::Flag => b" flag",
            Kind::Words => b" text",
        });
        page.put_if(self.nullable, b" null");
        if let Some(val) = &self.standard {
            page.put(b" = ");
            val.show(page);
        }
    }
}

/// Puts a tag or an edge type at the end.
fn put_type(page: &mut Page, name: &Spanned, columns: &Columns, absent: bool) {
    page.put_if(absent, b"if absent ");
    name.show(page);
    page.put(b" (");
    page.list(columns.as_slice());
    page.put(b")");
}

impl Show for Define {
    fn show(&self, page: &mut Page) {
        match self {
            Define::Space(name, parts, factor, ids, absent) => {
                page.put(b"space ");
                page.put_if(*absent, b"if absent ");
                name.show(page);
                page.put(b" parts ");
                page.number(*parts);
                page.put(b" factor ");
                page.number(*factor);
                page.put(b" ");
                ids.show(page);
            }
            Define::Tag(name, columns, absent) => {
                page.put(b"tag ");
                put_type(page, name, columns, *absent);
            }
            Define::Edge(name, columns, absent) => {
                page.put(b"edge ");
                put_type(page, name, columns, *absent);
            }
        }
    }
}

impl Show for Ends {
    fn show(&self, page: &mut Page) {
        self.src.show(page);
        page.put(b"->");
        self.dst.show(page);
        page.put(b" rank ");
        page.number(self.rank);
    }
}

impl Show for Values {
    fn show(&self, page: &mut Page) {
        page.put(b" ");
        page.place(self.at);
        page.put(b"(");
        page.list(self.list.as_slice());
        page.put(b")");
    }
}

impl Show for VertexRow {
    fn show(&self, page: &mut Page) {
        self.id.show(page);
        self.values.show(page);
    }
}

impl Show for EdgeRow {
    fn show(&self, page: &mut Page) {
        self.ends.show(page);
        self.values.show(page);
    }
}

/// Puts what INSERT writes to at the end.
fn put_listed(page: &mut Page, absent: bool, name: &Spanned, columns: &[Spanned]) {
    page.put_if(absent, b"if absent ");
    name.show(page);
    page.put(b" (");
    page.list(columns);
    page.put(b") ");
}

impl Show for PutVertices {
    fn show(&self, page: &mut Page) {
        page.put(b"put vertices ");
        put_listed(page, self.absent, &self.name, self.columns.as_slice());
        page.list(self.rows.as_slice());
    }
}

impl Show for PutEdges {
    fn show(&self, page: &mut Page) {
        page.put(b"put edges ");
        put_listed(page, self.absent, &self.name, self.columns.as_slice());
        page.list(self.rows.as_slice());
    }
}

impl Show for RawExpr {
    fn show(&self, page: &mut Page) {
        match self {
            RawExpr::Src => page.put(b"src"),
            RawExpr::Dst => page.put(b"dst"),
            RawExpr::Rank => page.put(b"rank"),
            RawExpr::Label => page.put(b"type"),
            RawExpr::Id => page.put(b"id"),
            RawExpr::Property(column) => {
                page.put(b"any.");
                column.show(page);
            }
            RawExpr::Named(owner, column) => {
                owner.show(page);
                page.put(b".");
                column.show(page);
            }
        }
    }
}

impl Show for RawStep {
    fn show(&self, page: &mut Page) {
        match self {
            RawStep::Test(expr, rel, lit) => {
                expr.show(page);
                rel.show(page);
                lit.show(page);
            }
            RawStep::Not => page.put(b"not"),
            RawStep::And => page.put(b"and"),
            RawStep::Or => page.put(b"or"),
        }
    }
}

impl Show for Way {
    fn show(&self, page: &mut Page) {
        page.put(match self {
            Way::Outward => b"",
            Way::Inward => b" inward",
            Way::Both => b" both",
        });
    }
}

impl Show for GoWords {
    fn show(&self, page: &mut Page) {
        page.put(b"go ");
        page.number(self.steps);
        page.put(b" from ");
        page.list(self.start.as_slice());
        page.put(b" over ");
        match &self.over {
            Some(names) => page.list(names.as_slice()),
            None => page.put(b"*"),
        }
        self.way.show(page);
        if let Some(steps) = &self.keep {
            page.put(b" where ");
            page.list(steps.as_slice());
        }
        page.put(b" yield ");
        page.list(self.shown.as_slice());
    }
}

/// Puts a list of what a name has at the end, and what is shown of each.
fn put_fetched<T: Show>(page: &mut Page, name: &Spanned, list: &[T], shown: &[RawExpr]) {
    page.put(b"fetch ");
    name.show(page);
    page.put(b" ");
    page.list(list);
    page.put(b" yield ");
    page.list(shown);
}

impl Show for Statement {
    fn show(&self, page: &mut Page) {
        match self {
            Statement::Make(define) => define.show(page),
            Statement::Select(name) => {
                page.put(b"use ");
                name.show(page);
            }
            Statement::PutVertex(words) => words.show(page),
            Statement::PutEdge(words) => words.show(page),
            Statement::DelVertex(list) => {
                page.put(b"delete vertices ");
                page.list(list.as_slice());
            }
            Statement::DelEdge(name, list) => {
                page.put(b"delete edges ");
                name.show(page);
                page.put(b" ");
                page.list(list.as_slice());
            }
            Statement::FetchVertex(name, list, shown) => {
                put_fetched(page, name, list.as_slice(), shown.as_slice())
            }
            Statement::FetchEdge(name, list, shown) => {
                put_fetched(page, name, list.as_slice(), shown.as_slice())
            }
            Statement::Go(words) => words.show(page),
        }
    }
}

impl Show for Line {
    fn show(&self, page: &mut Page) {
        if self.client != 1 {
            page.put(b"client ");
            page.number(self.client);
            page.put(b" ");
        }
        page.put_if(self.collected, b"collected ");
        self.statement.show(page);
    }
}

impl Show for ParseRefused {
    fn show(&self, page: &mut Page) {
        match self {
            ParseRefused::BadToken(at) => page.refusal(b"token", *at),
            ParseRefused::Syntax(at) => page.refusal(b"syntax", *at),
            ParseRefused::NumberTooWide(at) => page.refusal(b"number", *at),
            ParseRefused::TooMany(at) => page.refusal(b"many", *at),
            ParseRefused::BadOption(at) => page.refusal(b"option", *at),
            ParseRefused::NoMemory => page.put(b"memory"),
        }
    }
}
