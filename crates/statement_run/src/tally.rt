//! What the answers of a statement's calls tell of its end.
ghost use Rattle.std.specs.Prelude.{◌≡◌, ◌||◌, ◌&&◌, Some};
ghost use Rattle.statement_run.specs.Ending as spec;

use crate::ending::{Ending, Stop};
use graph_model::Answer;

/// How many of its calls were answered, whether one was Pending and whether all were Skipped, and the answer that ended it.
#[derive(Clone, Copy)]
pub struct Tally {
    pub(crate) calls: u32,
    pub(crate) pending: bool,
    pub(crate) skipped: bool,
    pub(crate) stop: Option<Stop>,
}

/// How an answer of the call at this place ends its statement, if it does.
fn stop_of(answer: &Answer, place: u32) -> Option<Stop>
    ensures { result ≡ spec.stop_of place answer.now }
{
    match answer {
        Answer::Conflict(id) => Some(Stop::Conflict(*id, place)),
        Answer::Cancelled => Some(Stop::Cancelled(place)),
        Answer::Unknown => Some(Stop::Unknown(place)),
        _ => None,
    }
}

/// Whether one was Pending, with this answer.
fn now_pending(before: bool, answer: &Answer) -> bool
    ensures { result ≡ (before || spec.is_pending answer.now) }
{
    match answer {
        Answer::Pending => true,
        _ => before,
    }
}

/// Whether all were Skipped, with this answer.
fn still_skipped(before: bool, answer: &Answer) -> bool
    ensures { result ≡ (before && spec.is_skipped answer.now) }
{
    match answer {
        Answer::Skipped => before,
        _ => false,
    }
}

impl Tally {
    ghost use Rattle.std.specs.Prelude.{◌≡◌, ◌+◌, ◌++◌, ◌∷◌, [], List, None};
    ghost use Rattle.graph_model.specs.declared.answer.Answer.{Answer};
    ghost use Rattle.statement_run.specs.Tally.{IsTally};
    ghost use Rattle.std.specs.Option.{option_map};
    ghost use Rattle.statement_run.specs.Ending.{calls_end, stopped_end};

    /// No answer.
    pub(crate) fn new() -> Tally
        ensures { IsTally result [] }
    {
        Tally {
            calls: 0,
            pending: false,
            skipped: true,
            stop: None,
        }
    }

    /// One answer more, while none ended the statement; with it there are so many.
    #[tactic(auto, using(crate::proofs::Tallies::noted))]
    pub(crate) fn note(&mut self, answer: &Answer, calls: u32)
        requires goes { self.old.stop ≡ None }
        requires calls { calls ≡ self.old.calls + 1 }
        ensures { (answers : List Answer) → IsTally self.old answers → IsTally self.new (answers ++ answer.now ∷ []) }
    {
        let pending = now_pending(self.pending, answer);
        let skipped = still_skipped(self.skipped, answer);
        let stop = stop_of(answer, calls);
        *self = Tally {
            calls,
            pending,
            skipped,
            stop,
        };
    }

    /// How an answer ended the statement, if one did.
    pub(crate) fn stopped(&self) -> Option<Ending>
        ensures { result ≡ option_map stopped_end self.now.stop }
    {
        match &self.stop {
            Some(stop) => Some(stop.ending()),
            None => None,
        }
    }

    /// How calls end that no answer ended.
    pub(crate) fn calls_end(&self) -> Ending
        ensures { (answers : List Answer) → IsTally self.now answers → result ≡ calls_end answers }
    {
        if self.pending {
            return Ending::Pending;
        }
        if self.calls != 0 && self.skipped {
            return Ending::Skipped;
        }
        Ending::Fine
    }
}
