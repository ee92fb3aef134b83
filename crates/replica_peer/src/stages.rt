//! Parts of a Raft step that is made ahead.
ghost use Rattle.std.specs.Prelude.{◌≡◌, ◌++◌, [], List, map, IfOk, if◌then◌else◌};
ghost use Rattle.std.specs.Option.{option_map, option_to_list};
ghost use Rattle.replica_model.specs.Replica.{Row};
ghost use Rattle.replica_state.specs.State.{row_of};
ghost use Rattle.replica_peer.specs.Next.{reads_left};
ghost use Rattle.replica_peer.specs.Stages.{told_of, told_by, viewed_of, row_begun};

use crate::next::Reads;
use chain_leader::Letter;
use graph_model::{Answer, CallId};
use lists::NoMemory;
use replica_state::{WaitingRead, chain_of};
use std::alloc::Global;

// The chain that a letter is about, where it is about one.
fn told_of(letter: &Letter) -> Option<u64>
    ensures { result ≡ told_of letter.now }
{
    match letter {
        Letter::Cross(_, _, said) => Some(chain_of(said)),
        _ => None,
    }
}

/// The chains that letters are about. Refused for want of memory alone.
pub(crate) fn chains_told(alloc: Global, list: &[Letter]) -> Result<Vec<u64>, NoMemory>
    ensures { IfOk result (λ told. told.items ≡ told_by list.now) }
{
    let mut told = Vec::new(alloc);
    for letter in list {
        if let Some(v) = told_of(letter) {
            told.push(v)?;
        }
    }
    Ok(told)
}

/// The read that begins a round in a step, from the round before it to the one behind it.
pub(crate) fn begun_row(
    viewed: Option<(CallId, Answer)>,
    before: u64,
    behind: u64,
) -> Option<WaitingRead>
    ensures { map row_of (option_to_list result) ≡ row_begun (option_map viewed_of viewed) before behind }
{
    let Some((id, answer)) = viewed else {
        return None;
    };
    if behind <= before {
        return None;
    }
    Some(WaitingRead {
        id,
        answer,
        round: behind,
    })
}

/// What becomes of the reads that wait, where they stay or not, and one begins its round.
pub(crate) fn reads_ahead(keeps: bool, begun: Option<WaitingRead>) -> Reads
    ensures { (rows : List Row) → reads_left result rows ≡ (if keeps then rows ++ map row_of (option_to_list begun) else []) }
{
    if !keeps {
        return Reads::Dropped;
    }
    match begun {
        None => Reads::Stay,
        Some(read) => Reads::OneMore(read),
    }
}
