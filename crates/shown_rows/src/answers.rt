//! A stack of answers.
ghost use Rattle.std.specs.Prelude.{◌≡◌, [], ◌∷◌, ◌&&◌, ◌||◌, IfSome, IfNone, OnOk};
ghost use Rattle.shown_rows.specs.Conditions as spec;

use lists::NoMemory;
use std::alloc::Global;
use std::marker::Model;

/// A stack of answers; contracts see the last one first.
#[derive(Drop)]
pub struct Answers {
    items: Vec<bool>,
}

impl Model for Answers {
    ghost use Rattle.std.specs.Prelude.{Bool, List, reverse};

    ghost Value = { List Bool };

    ghost view = { λ a. reverse a.items.items };
}

impl Answers {
    /// No answer yet.
    pub fn new(alloc: Global) -> Answers
        ensures { result ≡ [] }
    {
        Answers {
            items: Vec::new(alloc),
        }
    }

    /// Puts an answer. Refused for want of memory alone.
    pub fn put(&mut self, answer: bool) -> Result<(), NoMemory>
        ensures { OnOk result (self.new ≡ answer ∷ self.old) }
    {
        self.items.push(answer)?;
        Ok(())
    }

    /// Takes the last answer.
    pub fn take(&mut self) -> Option<bool>
        ensures some { IfSome result (λ answer. self.old ≡ answer ∷ self.new) }
        ensures none { IfNone result ((self.old ≡ []) × (self.new ≡ [])) }
    {
        self.items.pop()
    }

    /// Turns the last answer into the other one. Refused for want of memory alone.
    pub fn turn(&mut self) -> Result<(), NoMemory>
        ensures { OnOk result (self.new ≡ spec.turned self.old) }
    {
        match self.take() {
            Some(a) => self.put(!a),
            None => Ok(()),
        }
    }

    /// Puts whether the last two answers are both true in their place. Refused for want of memory alone.
    pub fn join_and(&mut self) -> Result<(), NoMemory>
        ensures { OnOk result (self.new ≡ spec.joined (λ a b. a && b) self.old) }
    {
        let Some(b) = self.take() else {
            return Ok(());
        };
        match self.take() {
            Some(a) => self.put(a && b),
            None => Ok(()),
        }
    }

    /// Puts whether one of the last two answers is true in their place. Refused for want of memory alone.
    pub fn join_or(&mut self) -> Result<(), NoMemory>
        ensures { OnOk result (self.new ≡ spec.joined (λ a b. a || b) self.old) }
    {
        let Some(b) = self.take() else {
            return Ok(());
        };
        match self.take() {
            Some(a) => self.put(a || b),
            None => Ok(()),
        }
    }

    /// The last answer, and false where there is none.
    pub fn last(self) -> bool
        ensures { result ≡ spec.last_of self }
    {
        let mut answers = self;
        match answers.take() {
            Some(answer) => answer,
            None => false,
        }
    }
}
