//! What a line is answered.
use crate::line_refused::LineRefused;
use graph_model::{CallId, Row};
use lists::Listed;
use meta_parts::Stage;

/// The rows that a statement shows, in order.
pub type Table = Listed<Row>;

/// Parts, rising, each with the nodes of its replicas, rising.
pub type PartNodes = Listed<(u32, Listed<u32>)>;

/// What a line is answered. A place is that of a call in its statement, from 1.
#[derive(Drop)]
pub enum LineAnswer {
    /// It is done.
    Fine,
    /// All that it puts was there.
    Skipped,
    /// A call of it is certain, and done by half.
    Pending,
    /// What it found.
    Rows(Table),
    /// Another call was in the way of the call at this place.
    Conflict(CallId, u32),
    /// The call at this place was not done, and won't be.
    Cancelled(u32),
    /// Nobody answered the call at this place.
    Unknown(u32),
    /// So many moves were under way, and so many of them are done.
    Moves(u32, u32),
    /// The move of this part is at this stage.
    Task(u32, Stage),
    /// No move is under way.
    NoTask,
    /// The table of parts.
    Parts(PartNodes),
    /// The line isn't taken.
    Refused(LineRefused),
}
