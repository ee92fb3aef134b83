//! Copies of what packets hold.
ghost use Rattle.std.specs.Prelude.{◌≡◌, IfOk};

use chain_leader::ChainBody;
use chain_world::ChainEnd;
use graph_model::{Answer, Found, View};
use lists::{Copied, Listed, NoMemory};
use std::alloc::Global;

/// The same end.
pub(crate) fn copied_end(end: &ChainEnd) -> ChainEnd
    ensures { result ≡ end.now }
{
    match end {
        ChainEnd::Client(client) => ChainEnd::Client(*client),
        ChainEnd::Part(part) => ChainEnd::Part(*part),
        ChainEnd::Leader(part, term) => ChainEnd::Leader(*part, *term),
    }
}

fn copied_view(alloc: Global, view: &View) -> Result<View, NoMemory>
    ensures { IfOk result (λ copy. copy ≡ view.now) }
{
    let mut made = Listed::new(alloc);
    for found in view.as_slice() {
        made.push(Found {
            edge: found.edge,
            inward: found.inward,
            row: found.row.copy(alloc)?,
        })?;
    }
    Ok(made)
}

/// An equal answer. Refused for want of memory alone.
pub(crate) fn copied_answer(alloc: Global, answer: &Answer) -> Result<Answer, NoMemory>
    ensures { IfOk result (λ copy. copy ≡ answer.now) }
{
    Ok(match answer {
        Answer::Fine => Answer::Fine,
        Answer::Skipped => Answer::Skipped,
        Answer::Pending => Answer::Pending,
        Answer::Conflict(other) => Answer::Conflict(*other),
        Answer::Cancelled => Answer::Cancelled,
        Answer::Unknown => Answer::Unknown,
        Answer::Shown(view) => Answer::Shown(copied_view(alloc, view)?),
    })
}

/// An equal body. Refused for want of memory alone.
pub(crate) fn copied_body(alloc: Global, body: &ChainBody) -> Result<ChainBody, NoMemory>
    ensures { IfOk result (λ copy. copy ≡ body.now) }
{
    Ok(match body {
        ChainBody::Request(number, entry) => ChainBody::Request(*number, entry.copied(alloc)?),
        ChainBody::Answer(number, answer) => {
            ChainBody::Answer(*number, copied_answer(alloc, answer)?)
        }
        ChainBody::NotLeader(other, part, peer) => ChainBody::NotLeader(*other, *part, *peer),
        ChainBody::Remote(term, v, list) => ChainBody::Remote(*term, *v, list.copy(alloc)?),
        ChainBody::Done(term, v) => ChainBody::Done(*term, *v),
        ChainBody::Stale(term, v, above) => ChainBody::Stale(*term, *v, *above),
        ChainBody::Fence(term, v, edges) => ChainBody::Fence(*term, *v, edges.copy(alloc)?),
        ChainBody::Fenced(term, v, written) => ChainBody::Fenced(*term, *v, *written),
        ChainBody::Resume(term, behind) => ChainBody::Resume(*term, *behind),
    })
}
