//! What a Remote and a Fence do.
ghost use Rattle.std.specs.Prelude.{◌≡◌, ℕ, IfOk};
ghost use Rattle.graph_bytes.specs.Fits.{IsSmall};
ghost use Rattle.part_keys.specs.declared.entry.PartEntry.TheVariants as entry;
ghost use Rattle.part_rules.specs.Part.{Part};
ghost use Rattle.part_store.specs.Settings.{IsSetting, AreInto, AreEnds};
ghost use Rattle.part_machine.specs.Chains.{Chains};
ghost use Rattle.part_machine.specs.Plans.{IsState, IsNext, IsPlan};

use crate::calls::still;
use crate::edges::{all_written, fresh_of};
use crate::plan::Plan;
use graph_model::{EdgeHalves, EdgeId};
use kv_part::{Batch, KeyStore};
use lists::NoMemory;
use part_rules::Applied;
use part_store::{Setting, guard_at, push_guard, push_ins};
use std::alloc::Global;

/// What a Remote does: where a leader of a greater term was here it is stale; else the guard is raised, and each in-half
/// whose number is lower is written. Refused for want of memory alone.
pub(crate) fn plan_remote<S: KeyStore>(
    alloc: Global,
    s: Setting,
    store: &S,
    source: u32,
    term: u64,
    v: u64,
    list: &EdgeHalves,
) -> Result<Plan, NoMemory>
    requires setting { IsSetting s }
    requires source { IsSmall source }
    requires into { AreInto s list.now }
    ensures { (p : Part) (chains : Chains) (next index : ℕ) → IsNext next index → IsState s next p (S.meaning store.now) chains
        → IfOk result (IsPlan s index (entry.Remote source term v list.now) p (S.meaning store.now) chains) }
{
    let kept = guard_at(s, store, source);
    if term < kept {
        return Ok(still(alloc, Applied::Stale(kept)));
    }
    let fresh = fresh_of(alloc, s, store, v, list.as_slice())?;
    let mut batch = Batch::new(alloc);
    push_guard(alloc, s, &mut batch, source, term)?;
    push_ins(alloc, s, &mut batch, v, fresh.as_slice())?;
    Ok(Plan {
        batch,
        turn: None,
        answer: Applied::Done,
    })
}

/// What a Fence does: where a leader of a greater term was here it is stale; else the guard is raised, and the answer
/// tells whether the chain, or a later one, wrote the in-half of each of the edges. Refused for want of memory alone.
pub(crate) fn plan_fence<S: KeyStore>(
    alloc: Global,
    s: Setting,
    store: &S,
    source: u32,
    term: u64,
    v: u64,
    edges: &[EdgeId],
) -> Result<Plan, NoMemory>
    requires setting { IsSetting s }
    requires source { IsSmall source }
    requires into { AreEnds s edges.now }
    ensures { (p : Part) (chains : Chains) (next index : ℕ) → IsNext next index → IsState s next p (S.meaning store.now) chains
        → IfOk result (IsPlan s index (entry.Fence source term v edges.now) p (S.meaning store.now) chains) }
{
    let kept = guard_at(s, store, source);
    if term < kept {
        return Ok(still(alloc, Applied::Stale(kept)));
    }
    let mut guard = Batch::new(alloc);
    push_guard(alloc, s, &mut guard, source, term)?;
    Ok(Plan {
        batch: guard,
        turn: None,
        answer: Applied::Fenced(all_written(s, store, v, edges)),
    })
}
