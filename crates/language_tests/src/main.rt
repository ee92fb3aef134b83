//! Tests of the query language: a corpus of lines that a person reads.
//!
//! A program, since lines that it reads cost no proof: `stdin` is the corpus, and `stdout` has each of its lines with what it
//! answers below it: its tokens; what it says, or why it is refused and where; and, where it is taken, what a schema behind the
//! lines before it makes of it. Of each line one answer is by hand from the rules; the others are those of a reader that was
//! written apart, by the rules alone. A line `% ..` is none of the language's: it is a remark, or one of the four that `Corpus`
//! knows.
//!
//! `follow@13` is the name that stands at byte 13 of its line, and `column 2.0` the first column of the second edge type or tag.
//!
//! Below are `ngql_lex`, `ngql_parser` and `schema_book`; nothing is above.
#![tactic(auto)]

mod bound;
mod corpus;
mod page;
mod show;
mod spelling;
mod tokens;
mod values;
mod written;

use crate::corpus::Corpus;
use crate::page::Page;
use lists::NoMemory;
use outside_io::{StdSink, StdSource, Stop, read_up_to, write_all};
use std::alloc::Global;
use std::process::ExitCode;

/// The most bytes of the corpus.
const MOST_READ: usize = 1_048_576;

fn main(rt: HostRuntime) -> ExitCode {
    let alloc = rt.alloc();
    let mut source = StdSource::new(rt.stdin());
    let mut text = Vec::new(alloc);
    let Stop::Ended = read_up_to(&mut source, &mut text, MOST_READ) else {
        return ExitCode::FAILURE;
    };
    let Ok(page) = answered(alloc, text.as_slice()) else {
        return ExitCode::FAILURE;
    };
    let Some(answers) = page.whole() else {
        return ExitCode::FAILURE;
    };
    let mut sink = StdSink::new(rt.stdout());
    match write_all(&mut sink, answers) {
        Ok(()) => ExitCode::SUCCESS,
        Err(_) => ExitCode::FAILURE,
    }
}

/// What all lines of the corpus answer.
fn answered(alloc: Global, text: &[u8]) -> Result<Page, NoMemory> {
    Corpus::new(alloc)?.read(text)
}
