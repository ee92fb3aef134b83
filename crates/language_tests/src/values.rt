//! Values, ids and edges.
use crate::page::Page;
use crate::show::Show;
use graph_model::{EdgeId, Row, Val, Vid};
use ngql_syntax::Rel;

/// Puts a text in double quotes at the end.
fn quote(page: &mut Page, text: &[u8]) {
    page.put(b"\"");
    page.put(text);
    page.put(b"\"");
}

impl Show for Val {
    fn show(&self, page: &mut Page) {
        match self {
            Val::Null => page.put(b"NULL"),
            Val::Int(number) => page.number(*number),
            Val::Flag(flag) => page.put(if *flag { b"true" } else { b"false" }),
            Val::Words(text) => quote(page, text.as_slice()),
        }
    }
}

impl Show for Vid {
    fn show(&self, page: &mut Page) {
        match self {
            Vid::Num(number) => page.number(*number),
            Vid::Name(name) => quote(page, name.as_slice()),
        }
    }
}

impl Show for EdgeId {
    fn show(&self, page: &mut Page) {
        page.number(self.etype);
        page.put(b" ");
        self.src.show(page);
        page.put(b"->");
        self.dst.show(page);
        page.put(b"@");
        page.number(self.rank);
    }
}

impl Show for Row {
    fn show(&self, page: &mut Page) {
        page.put(b" (");
        page.list(self.as_slice());
        page.put(b")");
    }
}

impl Show for (EdgeId, Row) {
    fn show(&self, page: &mut Page) {
        self.0.show(page);
        self.1.show(page);
    }
}

impl Show for Rel {
    fn show(&self, page: &mut Page) {
        page.put(match self {
            Rel::Eq => b" == ",
            Rel::Ne => b" != ",
            Rel::Lt => b" < ",
            Rel::Le => b" <= ",
            Rel::Gt => b" > ",
            Rel::Ge => b" >= ",
        });
    }
}
