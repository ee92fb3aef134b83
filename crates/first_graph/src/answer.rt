//! What a call is answered.
ghost use Rattle.std.specs.Prelude.{◌≡◌, ◌↔◌, IfOk, IsTrue};

use crate::call_id::CallId;
use crate::found::View;
use lists::{Copied, NoMemory, Same};
use std::alloc::Global;

/// What a call is answered.
#[derive(Debug, Drop)]
pub enum Answer {
    /// It is done.
    Fine,
    /// The row was there, and IF NOT EXISTS left it.
    Skipped,
    /// It is certain, and one half of the edge has it; the other half follows.
    Pending,
    /// This other call has a chain under way on the edge.
    Conflict(CallId),
    /// It was not done, and won't be.
    Cancelled,
    /// Nobody answered: it may or may not be done, at most once.
    Unknown,
    /// What the query found.
    Shown(View),
}

impl Answer {
    /// An equal answer. Refused for want of memory alone.
    pub fn copy(&self, alloc: Global) -> Result<Self, NoMemory>
        ensures { IfOk result (λ answer. answer ≡ self.now) }
    {
        Ok(match self {
            Answer::Fine => Answer::Fine,
            Answer::Skipped => Answer::Skipped,
            Answer::Pending => Answer::Pending,
            Answer::Conflict(id) => Answer::Conflict(*id),
            Answer::Cancelled => Answer::Cancelled,
            Answer::Unknown => Answer::Unknown,
            Answer::Shown(view) => Answer::Shown(view.copy(alloc)?),
        })
    }
}

impl Copied for Answer {
    fn copied(&self, alloc: Global) -> Result<Self, NoMemory> {
        self.copy(alloc)
    }
}

impl Same for Answer {
    fn is_same(&self, other: &Self) -> bool {
        match (self, other) {
            (Answer::Fine, Answer::Fine) => true,
            (Answer::Skipped, Answer::Skipped) => true,
            (Answer::Pending, Answer::Pending) => true,
            (Answer::Conflict(a), Answer::Conflict(b)) => *a == *b,
            (Answer::Cancelled, Answer::Cancelled) => true,
            (Answer::Unknown, Answer::Unknown) => true,
            (Answer::Shown(a), Answer::Shown(b)) => a.is_same(b),
            _ => false,
        }
    }
}
