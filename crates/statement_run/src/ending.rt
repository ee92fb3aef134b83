//! How a statement ends.
ghost use Rattle.std.specs.Prelude.{◌≡◌};
ghost use Rattle.statement_run.specs.Ending as spec;

use graph_model::CallId;
use schema_book::{FetchPlan, GoPlan};
use traversal::Views;

/// An answer that ends its statement, with the place of its call, from 1.
#[derive(Clone, Copy)]
pub(crate) enum Stop {
    /// The other call had a chain under way.
    Conflict(CallId, u32),
    /// The call was not done, and won't be.
    Cancelled(u32),
    /// Nobody answered the call.
    Unknown(u32),
}

/// How a statement ends. A number is the place of the call that ended it, from 1.
#[derive(Drop)]
pub enum Ending {
    /// It is done.
    Fine,
    /// Each of its calls found the rows there, and left them.
    Skipped,
    /// It is certain, and what follows of one of its calls is still to come.
    Pending,
    /// It reads, and this is what its reads found, in order.
    Fetched(FetchPlan, Views),
    /// It walks, and this is what the reads of its last step found, in order.
    Walked(GoPlan, Views),
    /// Its walk had too many vertices to read.
    Wide,
    /// The other call had a chain under way.
    Conflict(CallId, u32),
    /// A call was not done, and won't be.
    Cancelled(u32),
    /// Nobody answered a call.
    Unknown(u32),
}

impl Stop {
    /// How it ends its statement.
    pub(crate) fn ending(&self) -> Ending
        ensures { result ≡ spec.stopped_end self.now }
    {
        match self {
            Stop::Conflict(id, place) => Ending::Conflict(*id, *place),
            Stop::Cancelled(place) => Ending::Cancelled(*place),
            Stop::Unknown(place) => Ending::Unknown(*place),
        }
    }
}
