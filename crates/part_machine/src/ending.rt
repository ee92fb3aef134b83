//! What a Local, a Double, a Close and an Abort do.
ghost use Rattle.std.specs.Prelude.{◌≡◌, ℕ, IfOk};
ghost use Rattle.part_keys.specs.declared.entry.PartEntry.TheVariants as entry;
ghost use Rattle.part_rules.specs.Part.{Part};
ghost use Rattle.part_store.specs.Settings.{IsSetting};
ghost use Rattle.part_machine.specs.Chains.{standing};
ghost use Rattle.part_machine.specs.Plans.{IsState, IsNext, IsPlan, AreOwn};

use crate::calls::{push_outcome, still};
use crate::chains::{Places, chain_of, copied_chain};
use crate::plan::Plan;
use crate::turn::Turn;
use kv_part::{Batch, KeyStore};
use lists::NoMemory;
use part_keys::PrimeRec;
use part_rules::{Applied, Outcome};
use part_store::{Setting, push_chains, push_no_chains, push_outs};
use std::alloc::Global;

/// What a Local does: a chain that isn't double writes its out-halves and ends, and its call is Fine. Refused for want
/// of memory alone.
pub(crate) fn plan_local<S: KeyStore>(
    alloc: Global,
    s: Setting,
    store: &S,
    places: &Places,
    v: u64,
) -> Result<Plan, NoMemory>
    requires setting { IsSetting s }
    requires own { AreOwn s (standing places.now.entries) }
    ensures { (p : Part) (next index : ℕ) → IsNext next index → IsState s next p (S.meaning store.now) (standing places.now.entries)
        → IfOk result (IsPlan s index (entry.Local v) p (S.meaning store.now) (standing places.now.entries)) }
{
    let Some(chain) = chain_of(places, v) else {
        return Ok(still(alloc, Applied::Nothing));
    };
    if chain.double {
        return Ok(still(alloc, Applied::Nothing));
    }
    let mut batch = Batch::new(alloc);
    push_outs(alloc, s, &mut batch, chain.list.as_slice())?;
    push_no_chains(alloc, s, false, &mut batch, chain.list.as_slice())?;
    push_outcome(alloc, s, store, &mut batch, chain.id, Outcome::Fine)?;
    Ok(Plan {
        batch,
        turn: Some(Turn { at: v, chain: None }),
        answer: Applied::Settled(chain.id),
    })
}

/// What a Double does: a chain that isn't double writes its out-halves and becomes double, and its call is Pending.
/// Refused for want of memory alone.
pub(crate) fn plan_double<S: KeyStore>(
    alloc: Global,
    s: Setting,
    store: &S,
    places: &Places,
    v: u64,
) -> Result<Plan, NoMemory>
    requires setting { IsSetting s }
    requires own { AreOwn s (standing places.now.entries) }
    ensures { (p : Part) (next index : ℕ) → IsNext next index → IsState s next p (S.meaning store.now) (standing places.now.entries)
        → IfOk result (IsPlan s index (entry.Double v) p (S.meaning store.now) (standing places.now.entries)) }
{
    let Some(chain) = chain_of(places, v) else {
        return Ok(still(alloc, Applied::Nothing));
    };
    if chain.double {
        return Ok(still(alloc, Applied::Nothing));
    }
    let mut batch = Batch::new(alloc);
    push_outs(alloc, s, &mut batch, chain.list.as_slice())?;
    push_no_chains(alloc, s, false, &mut batch, chain.list.as_slice())?;
    push_chains(
        alloc,
        s,
        true,
        &mut batch,
        v,
        &chain.id,
        chain.list.as_slice(),
    )?;
    push_outcome(alloc, s, store, &mut batch, chain.id, Outcome::Pending)?;
    let double = PrimeRec {
        double: true,
        ..copied_chain(alloc, chain)?
    };
    Ok(Plan {
        batch,
        turn: Some(Turn {
            at: v,
            chain: Some(double),
        }),
        answer: Applied::Doubled(chain.id),
    })
}

/// What a Close does: a double chain ends, and its call is Fine. Refused for want of memory alone.
pub(crate) fn plan_close<S: KeyStore>(
    alloc: Global,
    s: Setting,
    store: &S,
    places: &Places,
    v: u64,
) -> Result<Plan, NoMemory>
    requires setting { IsSetting s }
    requires own { AreOwn s (standing places.now.entries) }
    ensures { (p : Part) (next index : ℕ) → IsNext next index → IsState s next p (S.meaning store.now) (standing places.now.entries)
        → IfOk result (IsPlan s index (entry.Close v) p (S.meaning store.now) (standing places.now.entries)) }
{
    let Some(chain) = chain_of(places, v) else {
        return Ok(still(alloc, Applied::Nothing));
    };
    if !chain.double {
        return Ok(still(alloc, Applied::Nothing));
    }
    let mut batch = Batch::new(alloc);
    push_no_chains(alloc, s, true, &mut batch, chain.list.as_slice())?;
    push_outcome(alloc, s, store, &mut batch, chain.id, Outcome::Fine)?;
    Ok(Plan {
        batch,
        turn: Some(Turn { at: v, chain: None }),
        answer: Applied::Closed(chain.id),
    })
}

/// What an Abort does: a chain that isn't double ends, and its call is Cancelled. Refused for want of memory alone.
pub(crate) fn plan_abort<S: KeyStore>(
    alloc: Global,
    s: Setting,
    store: &S,
    places: &Places,
    v: u64,
) -> Result<Plan, NoMemory>
    requires setting { IsSetting s }
    requires own { AreOwn s (standing places.now.entries) }
    ensures { (p : Part) (next index : ℕ) → IsNext next index → IsState s next p (S.meaning store.now) (standing places.now.entries)
        → IfOk result (IsPlan s index (entry.Abort v) p (S.meaning store.now) (standing places.now.entries)) }
{
    let Some(chain) = chain_of(places, v) else {
        return Ok(still(alloc, Applied::Nothing));
    };
    if chain.double {
        return Ok(still(alloc, Applied::Nothing));
    }
    let mut batch = Batch::new(alloc);
    push_no_chains(alloc, s, false, &mut batch, chain.list.as_slice())?;
    push_outcome(alloc, s, store, &mut batch, chain.id, Outcome::Cancelled)?;
    Ok(Plan {
        batch,
        turn: Some(Turn { at: v, chain: None }),
        answer: Applied::Aborted(chain.id),
    })
}
