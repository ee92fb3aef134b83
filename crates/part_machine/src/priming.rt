//! What a Prime does.
ghost use Rattle.std.specs.Prelude.{◌≡◌, ◌<◌, ◌^◌, ℕ, IfOk};
ghost use Rattle.graph_bytes.specs.Fits.{IsSmall};
ghost use Rattle.std.specs.List.{AllByRecursion};
ghost use Rattle.part_keys.specs.Routing.{remote_of};
ghost use Rattle.part_keys.specs.declared.entry.PartEntry.TheVariants as entry;
ghost use Rattle.part_rules.specs.Part.{Part};
ghost use Rattle.part_store.specs.Keeps.{FitsOut};
ghost use Rattle.part_store.specs.Settings.{IsSetting, AreFrom};
ghost use Rattle.part_machine.specs.Calls.{begun_plan};
ghost use Rattle.part_machine.specs.Chains.{Chains};
ghost use Rattle.part_machine.specs.Plans.{IsState, IsNext, IsPlan};

use crate::calls::{keep, seen, still};
use crate::edges::{call_on_any, taken_of};
use crate::plan::Plan;
use crate::turn::Turn;
use graph_model::{CallId, EdgeHalves, EdgeId, Half};
use kv_part::{Batch, KeyStore};
use lists::NoMemory;
use part_keys::{PrimeRec, part_of};
use part_rules::{Applied, Kept, Outcome};
use part_store::{Setting, push_chains, push_client};
use std::alloc::Global;

/// The part in which the edges end.
fn remote_of(parts: u32, list: &[(EdgeId, Half)]) -> u32
    requires { 0 < parts }
    ensures { result ≡ remote_of parts list.now }
{
    match list.first() {
        Some(half) => part_of(half.0.dst, parts),
        None => 0,
    }
}

/// A chain begins with these edges. Refused for want of memory alone.
fn begin(
    alloc: Global,
    s: Setting,
    index: u64,
    id: CallId,
    list: EdgeHalves,
) -> Result<Plan, NoMemory>
    requires setting { IsSetting s }
    requires client { IsSmall id.client }
    requires from { AreFrom s list }
    ensures plan { IfOk result (λ plan. plan ≡ begun_plan s index id list) }
    ensures fits { IfOk result (λ _. AllByRecursion (FitsOut s) list) }
    ensures number { id.number < 2 ^ 64 }
{
    let mut batch = Batch::new(alloc);
    push_chains(alloc, s, false, &mut batch, index, &id, list.as_slice())?;
    let kept = Kept {
        number: id.number,
        outcome: Outcome::Open,
    };
    push_client(alloc, s, &mut batch, id.client, &kept)?;
    let chain = PrimeRec {
        v: index,
        id,
        remote: remote_of(s.parts, list.as_slice()),
        list,
        double: false,
    };
    Ok(Plan {
        batch,
        turn: Some(Turn {
            at: index,
            chain: Some(chain),
        }),
        answer: Applied::Begun(index),
    })
}

/// What a Prime does: a call that was seen is answered again, an edge with a chain is a conflict, edges that are all
/// here are skipped, and else a chain begins. Refused for want of memory alone.
pub(crate) fn plan_prime<S: KeyStore>(
    alloc: Global,
    s: Setting,
    store: &S,
    index: u64,
    id: CallId,
    list: &EdgeHalves,
    absent: bool,
) -> Result<Plan, NoMemory>
    requires setting { IsSetting s }
    requires client { IsSmall id.client }
    requires from { AreFrom s list.now }
    ensures { (p : Part) (chains : Chains) (next : ℕ) → IsNext next index → IsState s next p (S.meaning store.now) chains
        → IfOk result (IsPlan s index (entry.Prime id list.now absent) p (S.meaning store.now) chains) }
{
    if let Some(answer) = seen(s, store, id) {
        return Ok(still(alloc, answer));
    }
    if let Some(other) = call_on_any(s, store, list.as_slice()) {
        return keep(
            alloc,
            s,
            id,
            Outcome::Conflict(other),
            Applied::Conflict(other),
        );
    }
    let taken = taken_of(alloc, s, store, list.as_slice(), absent)?;
    if taken.is_empty() {
        return keep(alloc, s, id, Outcome::Skipped, Applied::Skipped);
    }
    begin(alloc, s, index, id, EdgeHalves::new(taken))
}
