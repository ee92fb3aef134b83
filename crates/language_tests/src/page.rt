//! Text that grows.
use crate::show::Show;
use itoa::{Buffer, Integer};
use std::alloc::Global;

/// Text that grows. Where memory runs out it is cut, and stays so.
#[derive(Drop)]
pub struct Page {
    text: Vec<u8>,
    cut: bool,
}

impl Page {
    /// No text yet.
    pub fn new(alloc: Global) -> Page {
        Page {
            text: Vec::new(alloc),
            cut: false,
        }
    }

    /// The text, and none where it was cut.
    pub fn whole(&self) -> Option<&[u8]> {
        if self.cut {
            return None;
        }
        Some(self.text.as_slice())
    }

    /// Takes all text out.
    pub fn clear(&mut self) {
        self.text.clear();
    }

    /// Puts text at the end.
    pub fn put(&mut self, text: &[u8]) {
        if self.text.extend_from_slice(text).is_err() {
            self.cut = true;
        }
    }

    /// Puts the text only where it says so.
    pub fn put_if(&mut self, says: bool, text: &[u8]) {
        if says {
            self.put(text);
        }
    }

    /// Puts a number at the end, in decimal digits.
    pub fn number<N: Integer>(&mut self, number: N) {
        let mut digits = Buffer::new();
        self.put(digits.format(number).as_bytes());
    }

    /// Puts a place at the end.
    pub fn place(&mut self, at: u32) {
        self.put(b"@");
        self.number(at);
    }

    /// Puts a refusal with its place at the end.
    pub fn refusal(&mut self, why: &[u8], at: u32) {
        self.put(why);
        self.put(b" ");
        self.number(at);
    }

    /// Puts the items at the end, with this before each.
    pub fn each<T: Show>(&mut self, before: &[u8], items: &[T]) {
        for item in items {
            self.put(before);
            item.show(self);
        }
    }

    /// Puts the items at the end, parted by commas.
    pub fn list<T: Show>(&mut self, items: &[T]) {
        if let Some((first, others)) = items.split_first() {
            first.show(self);
            self.each(b", ", others);
        }
    }
}
