//! Tokens: each its kind (Keyword, Name, Int, Words or Mark), how many bytes stand before it and before its end.
use crate::page::Page;
use crate::show::Show;
use ngql_lex::{LexRefused, Token, TokenKind};

impl Show for Token {
    fn show(&self, page: &mut Page) {
        page.put(match self.kind {
            TokenKind::Keyword => b"K",
            TokenKind::Name => b"N",
            TokenKind::Int => b"I",
            TokenKind::Words => b"W",
            TokenKind::Mark => b"M",
        });
        page.number(self.from);
        page.put(b"-");
        page.number(self.upto);
    }
}

impl Show for LexRefused {
    fn show(&self, page: &mut Page) {
        match self {
            LexRefused::BadToken(at) => page.refusal(b"token", *at),
            LexRefused::NoMemory => page.put(b"memory"),
        }
    }
}
