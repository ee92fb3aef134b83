//! Reads that wait.
ghost use Rattle.std.specs.Prelude.{◌≡◌, IfOk, map, not};
ghost use Rattle.std.specs.List.{filter};
ghost use Rattle.replica_model.specs.Replica.{Row};
ghost use Rattle.replica_model.specs.Stepped.{is_confirmed};
ghost use Rattle.replica_state.specs.State.{row_of};

use graph_model::{Answer, CallId, Found, View};
use lists::{Listed, NoMemory};
use std::alloc::Global;

/// A read that waits for its round: its call, its answer, and the round.
#[derive(Drop)]
pub struct WaitingRead {
    pub id: CallId,
    pub answer: Answer,
    pub round: u64,
}

fn copied_found(alloc: Global, found: &Found) -> Result<Found, NoMemory>
    ensures { IfOk result (λ copy. copy ≡ found.now) }
{
    Ok(Found {
        edge: found.edge,
        inward: found.inward,
        row: found.row.copy(alloc)?,
    })
}

fn copied_view(alloc: Global, view: &[Found]) -> Result<View, NoMemory>
    ensures { IfOk result (λ copy. copy ≡ view.now) }
{
    let mut copy = Listed::new(alloc);
    for found in view {
        copy.push(copied_found(alloc, found)?)?;
    }
    Ok(copy)
}

/// An equal answer. Refused for want of memory alone.
pub(crate) fn copied_answer(alloc: Global, answer: &Answer) -> Result<Answer, NoMemory>
    ensures { IfOk result (λ copy. copy ≡ answer.now) }
{
    match answer {
        Answer::Fine => Ok(Answer::Fine),
        Answer::Skipped => Ok(Answer::Skipped),
        Answer::Pending => Ok(Answer::Pending),
        Answer::Conflict(other) => Ok(Answer::Conflict(*other)),
        Answer::Cancelled => Ok(Answer::Cancelled),
        Answer::Unknown => Ok(Answer::Unknown),
        Answer::Shown(view) => Ok(Answer::Shown(copied_view(alloc, view.as_slice())?)),
    }
}

/// Takes out the reads whose round is confirmed. It takes no memory.
pub fn let_go(rows: &mut Vec<WaitingRead>, confirmed: u64)
    ensures { map row_of rows.new.items ≡ filter (λ (row : Row). not (is_confirmed confirmed row)) (map row_of rows.old.items) }
{
    rows.retain(|row| confirmed < row.round);
}
