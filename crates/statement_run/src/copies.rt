//! Copies of answers.
ghost use Rattle.std.specs.Prelude.{◌≡◌, IfOk};

use graph_model::{Answer, Found, View};
use lists::{Listed, NoMemory};
use std::alloc::Global;

/// An equal answer. Refused for want of memory alone.
pub(crate) fn copy_answer(alloc: Global, answer: &Answer) -> Result<Answer, NoMemory>
    ensures { IfOk result (λ copy. copy ≡ answer.now) }
{
    Ok(match answer {
        Answer::Fine => Answer::Fine,
        Answer::Skipped => Answer::Skipped,
        Answer::Pending => Answer::Pending,
        Answer::Conflict(id) => Answer::Conflict(*id),
        Answer::Cancelled => Answer::Cancelled,
        Answer::Unknown => Answer::Unknown,
        Answer::Shown(view) => Answer::Shown(copy_view(alloc, view.as_slice())?),
    })
}

/// An equal view. Refused for want of memory alone.
pub(crate) fn copy_view(alloc: Global, view: &[Found]) -> Result<View, NoMemory>
    ensures { IfOk result (λ copy. copy ≡ view.now) }
{
    let mut made = Listed::with_capacity(alloc, view.len())?;
    for found in view {
        made.push(copy_found(alloc, found)?)?;
    }
    Ok(made)
}

/// An equal row. Refused for want of memory alone.
fn copy_found(alloc: Global, found: &Found) -> Result<Found, NoMemory>
    ensures { IfOk result (λ copy. copy ≡ found.now) }
{
    Ok(Found {
        edge: found.edge,
        inward: found.inward,
        row: found.row.copy(alloc)?,
    })
}
