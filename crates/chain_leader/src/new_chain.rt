//! A chain that begins.
ghost use Rattle.std.specs.Prelude.{◌≡◌, IfOk};
ghost use Rattle.std.specs.Option.{option_copied};
ghost use Rattle.chain_leader.specs.Applying.{beginning_of, beginning_by};

use crate::body::ChainBody;
use crate::letter::Letter;
use crate::rules::added;
use lists::NoMemory;
use part_keys::{ChainState, Mode, PrimeRec};
use part_rules::Applied;
use std::alloc::Global;

/// A chain that begins at a leader: its number, the chain as it is added, and the letter that leaves.
#[derive(Drop)]
pub struct NewChain {
    pub v: u64,
    pub chain: ChainState,
    pub letter: Letter,
}

/// The chain that begins, where an entry's answer says so: `begun` is its record. Refused for want of memory alone.
pub fn beginning(
    alloc: Global,
    term: u64,
    said: &Applied,
    begun: Option<&PrimeRec>,
) -> Result<Option<NewChain>, NoMemory>
    ensures { IfOk result (λ made. made ≡ beginning_by term said.now (option_copied begun.entry)) }
{
    let Applied::Begun(_) = said else {
        return Ok(None);
    };
    let Some(rec) = begun else {
        return Ok(None);
    };
    Ok(Some(begins_by(alloc, term, rec)?))
}

/// The chain of a record, as it begins. Refused for want of memory alone.
fn begins_by(alloc: Global, term: u64, rec: &PrimeRec) -> Result<NewChain, NoMemory>
    ensures { IfOk result (λ made. made ≡ beginning_of term rec.now) }
{
    let list = rec.list.copy(alloc)?;
    let sent = rec.list.copy(alloc)?;
    Ok(NewChain {
        v: rec.v,
        chain: added(rec, list, Mode::Put),
        letter: Letter::Cross(rec.remote, 0, ChainBody::Remote(term, rec.v, sent)),
    })
}
