//! What a client's call is answered.
ghost use Rattle.std.specs.Prelude.{◌≡◌, [], if◌then◌else◌};
ghost use Rattle.std.specs.Option.{option_to_list};
ghost use Rattle.chain_leader.specs.Applying.{chain_at};
ghost use Rattle.chain_leader.specs.Calls.{is_write, call_in, answer_of};
ghost use Rattle.chain_leader.specs.Leading.{told, back_of, reply_to, chain_in};

use crate::body::ChainBody;
use crate::letter::Letter;
use graph_model::{Answer, CallId};
use part_keys::{PartEntry, Proposal};
use part_rules::{Applied, Outcome};

/// Whether the entry is a call's that writes.
pub fn is_write(entry: &PartEntry) -> bool
    ensures { result ≡ is_write entry.now }
{
    match entry {
        PartEntry::Prime(_, _, _) => true,
        PartEntry::Vertex(_, _) => true,
        _ => false,
    }
}

/// The call of an entry, where it is one's.
pub fn call_in(entry: &PartEntry) -> Option<CallId>
    ensures { result ≡ call_in entry.now }
{
    match entry {
        PartEntry::Prime(id, _, _) => Some(*id),
        PartEntry::Vertex(id, _) => Some(*id),
        PartEntry::Read(id, _) => Some(*id),
        _ => None,
    }
}

/// The chain that an entry may end.
pub fn chain_in(entry: &PartEntry) -> Option<u64>
    ensures { result ≡ chain_in entry.now }
{
    match entry {
        PartEntry::Local(v) => Some(*v),
        PartEntry::Close(v) => Some(*v),
        PartEntry::Abort(v) => Some(*v),
        _ => None,
    }
}

/// The chain that an item may end.
pub fn chain_at(item: &Proposal) -> Option<u64>
    ensures { result ≡ chain_at item.now }
{
    let Proposal::Made(entry) = item else {
        return None;
    };
    chain_in(entry)
}

/// The answer to a client that an applied entry gives, and the call that is answered.
pub fn answer_of(entry: &PartEntry, said: &Applied) -> Option<(CallId, Answer)>
    ensures { result ≡ answer_of entry.now said.now }
{
    let answer = match said {
        Applied::Again(outcome) => match outcome {
            Outcome::Open => return None,
            Outcome::Fine => Answer::Fine,
            Outcome::Skipped => Answer::Skipped,
            Outcome::Pending => Answer::Pending,
            Outcome::Cancelled => Answer::Cancelled,
            Outcome::Conflict(other) => Answer::Conflict(*other),
        },
        Applied::Conflict(other) => Answer::Conflict(*other),
        Applied::Skipped => Answer::Skipped,
        Applied::Settled(id) => return Some((*id, Answer::Fine)),
        Applied::Doubled(id) => return Some((*id, Answer::Pending)),
        Applied::Closed(id) => return Some((*id, Answer::Fine)),
        Applied::Aborted(id) => return Some((*id, Answer::Cancelled)),
        Applied::Finished(id) => return Some((*id, Answer::Fine)),
        _ => return None,
    };
    let Some(id) = call_in(entry) else {
        return None;
    };
    Some((id, answer))
}

/// The letter to the client of an applied entry.
pub fn told(entry: &PartEntry, said: &Applied) -> Option<Letter>
    ensures { option_to_list result ≡ told (answer_of entry.now said.now) }
{
    let Some((id, answer)) = answer_of(entry, said) else {
        return None;
    };
    Some(Letter::Tell(id, answer))
}

/// The letter to the sender of a Remote or a Fence that was applied.
pub fn back_of(entry: &PartEntry, said: &Applied) -> Option<Letter>
    ensures { option_to_list result ≡ back_of entry.now said.now }
{
    match entry {
        PartEntry::Remote(_, term, v, _) => reply_to(*term, *v, said),
        PartEntry::Fence(_, term, v, _) => reply_to(*term, *v, said),
        _ => None,
    }
}

/// The letter to that sender, where the leader proposed the entry itself.
pub(crate) fn back_where(own: bool, entry: &PartEntry, said: &Applied) -> Option<Letter>
    ensures { option_to_list result ≡ (if own then back_of entry.now said.now else []) }
{
    if own { back_of(entry, said) } else { None }
}

/// What a Remote or Fence of that term and chain is answered.
fn reply_to(term: u64, v: u64, said: &Applied) -> Option<Letter>
    ensures { option_to_list result ≡ reply_to term v said.now }
{
    match said {
        Applied::Done => Some(Letter::Back(ChainBody::Done(term, v))),
        Applied::Stale(above) => Some(Letter::Back(ChainBody::Stale(term, v, *above))),
        Applied::Fenced(written) => Some(Letter::Back(ChainBody::Fenced(term, v, *written))),
        _ => None,
    }
}
