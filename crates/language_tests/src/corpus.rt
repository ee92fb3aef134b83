//! The lines of the corpus, one after another.
use crate::page::Page;
use crate::show::Show;
use crate::spelling::put_spelled;
use lists::NoMemory;
use ngql_lex::{Token, lex};
use ngql_parser::parse;
use ngql_syntax::{Define, Spanned, Statement};
use schema_book::Book;
use std::alloc::Global;

/// The most bytes of a line.
const MOST_BYTES: usize = 65_536;

/// The most tokens that are shown one by one.
const MOST_TOKENS: usize = 1000;

/// What is read, with the schema behind the lines so far.
#[derive(Drop)]
pub struct Corpus {
    alloc: Global,
    book: Book,
    version: u8,
    answers: Page,
}

impl Corpus {
    /// Nothing is read yet: the schema is empty, and files are of version 2.
    pub fn new(alloc: Global) -> Result<Corpus, NoMemory> {
        Ok(Corpus {
            alloc,
            book: Book::new(alloc)?,
            version: 2,
            answers: Page::new(alloc),
        })
    }

    /// What all lines of a text answer.
    pub fn read(mut self, text: &[u8]) -> Result<Page, NoMemory> {
        let mut line = Page::new(self.alloc);
        for byte in text {
            if *byte != b'\n' {
                line.put(&[*byte]);
                continue;
            }
            self.take(line.whole().ok_or(NoMemory)?)?;
            line.clear();
        }
        Ok(self.answers)
    }

    /// Copies a line, and puts what it answers below it.
    fn take(&mut self, line: &[u8]) -> Result<(), NoMemory> {
        self.answers.put(line);
        self.answers.put(b"\n");
        if line.starts_with(b"% ") {
            return self.direct(line);
        }
        if line.is_empty() {
            return Ok(());
        }
        if let Some(cut) = line.strip_prefix(b"%< ") {
            self.answer_fronts(cut);
            return Ok(());
        }
        if let Some(marked) = line.strip_prefix(b"%~ ") {
            self.answer_marked(marked);
            return Ok(());
        }
        let mut spelled = Page::new(self.alloc);
        put_spelled(&mut spelled, line);
        self.answer(spelled.whole().ok_or(NoMemory)?);
        Ok(())
    }

    /// Does what a line that isn't for the store says.
    fn direct(&mut self, line: &[u8]) -> Result<(), NoMemory> {
        match line {
            b"% an empty schema" => self.book = Book::new(self.alloc)?,
            b"% the space is dropped" => self.book.drop_space(),
            b"% files of version 1" => self.version = 1,
            b"% files of version 2" => self.version = 2,
            _ => {}
        }
        Ok(())
    }

    /// Puts the tokens of a line, what it says, and what the schema makes of it.
    fn answer(&mut self, line: &[u8]) {
        if line.len() > MOST_BYTES {
            self.show(b"long");
            return;
        }
        match lex(self.alloc, line) {
            Ok(tokens) => self.show_tokens(tokens.as_slice()),
            Err(why) => self.show_one(&why),
        }
        match parse(self.alloc, line, self.version) {
            Ok(read) => {
                self.show_one(&read);
                self.run(read.statement);
            }
            Err(why) => self.show_one(&why),
        }
    }

    /// Puts what the line says where it ends behind each of its tokens.
    fn answer_fronts(&mut self, line: &[u8]) {
        if line.len() > MOST_BYTES {
            return;
        }
        let Ok(tokens) = lex(self.alloc, line) else {
            return;
        };
        for token in tokens.as_slice() {
            if let Some(front) = line.get(..token.upto as usize) {
                self.show_said(front);
            }
        }
        self.answers.put(b"\n");
    }

    /// Puts what the line says with a `~` before each of its tokens but the first.
    fn answer_marked(&mut self, line: &[u8]) {
        if line.len() > MOST_BYTES {
            return;
        }
        let Ok(tokens) = lex(self.alloc, line) else {
            return;
        };
        for token in tokens.as_slice().iter().skip(1) {
            if let Some((front, others)) = line.split_at_checked(token.from as usize) {
                let mut marked = Page::new(self.alloc);
                marked.put(front);
                marked.put(b"~");
                marked.put(others);
                self.show_said(marked.whole().unwrap_or(b""));
            }
        }
        self.answers.put(b"\n");
    }

    /// Puts what a line says behind what is there.
    fn show_said(&mut self, line: &[u8]) {
        self.answers.put(b" ");
        if line.len() > MOST_BYTES {
            return;
        }
        match parse(self.alloc, line, self.version) {
            Ok(read) => read.show(&mut self.answers),
            Err(why) => why.show(&mut self.answers),
        }
    }

    /// Puts what the schema makes of a statement.
    fn run(&mut self, statement: Statement) {
        match statement {
            Statement::Make(define) => self.make(&define),
            Statement::Select(name) => self.select(name),
            others => match self.book.bind(self.alloc, &others) {
                Ok(bound) => self.show_one(&bound),
                Err(why) => self.show_one(&why),
            },
        }
    }

    fn make(&mut self, define: &Define) {
        match self.book.create(self.alloc, define) {
            Ok(made) => self.show_one(&made),
            Err(why) => self.show_one(&why),
        }
    }

    fn select(&mut self, name: Spanned) {
        match self.book.select(name) {
            Ok(()) => self.show(b"selected"),
            Err(why) => self.show_one(&why),
        }
    }

    /// Puts a line of an answer.
    fn show(&mut self, text: &[u8]) {
        self.answers.put(b"  ");
        self.answers.put(text);
        self.answers.put(b"\n");
    }

    /// Puts tokens, or how many they are.
    fn show_tokens(&mut self, tokens: &[Token]) {
        if tokens.len() > MOST_TOKENS {
            self.answers.put(b"  ");
            self.answers.number(tokens.len());
            self.answers.put(b" tokens\n");
            return;
        }
        self.answers
            .put(if tokens.is_empty() { b"  none" } else { b" " });
        self.answers.each(b" ", tokens);
        self.answers.put(b"\n");
    }

    fn show_one<T: Show>(&mut self, shown: &T) {
        self.answers.put(b"  ");
        shown.show(&mut self.answers);
        self.answers.put(b"\n");
    }
}
