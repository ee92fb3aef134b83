//! What is kept of calls.
ghost use Rattle.std.specs.Prelude.{◌≡◌, ◌<◌, ◌^◌, [], ◌++◌, OnOk, IfOk, None};
ghost use Rattle.graph_bytes.specs.Fits.{IsSmall};
ghost use Rattle.part_store.specs.Keeps.{FitsOutcome};
ghost use Rattle.part_store.specs.Reads.{last_in_store};
ghost use Rattle.part_store.specs.Settings.{IsSetting, HasSpellingOutcome};
ghost use Rattle.part_store.specs.Writes.{client_writes};
ghost use Rattle.part_machine.specs.Calls.{seen_by, outcome_writes};

use crate::plan::Plan;
use graph_model::CallId;
use kv_part::{Batch, KeyStore};
use lists::NoMemory;
use part_rules::{Applied, Kept, Outcome};
use part_store::{Setting, last_at, push_client};
use std::alloc::Global;

/// The answer to a call whose number isn't above the client's last one; none to a new call.
pub(crate) fn seen<S: KeyStore>(s: Setting, store: &S, id: CallId) -> Option<Applied>
    requires setting { IsSetting s }
    requires client { IsSmall id.client }
    ensures { result ≡ seen_by id (last_in_store s (S.meaning store.now) id.client) }
{
    let Some(last) = last_at(s, store, id.client) else {
        return None;
    };
    if id.number < last.number {
        return Some(Applied::Old);
    }
    if id.number == last.number {
        return Some(Applied::Again(last.outcome));
    }
    None
}

/// Gives a call its outcome, where it is its client's last one. Refused for want of memory alone.
pub(crate) fn push_outcome<S: KeyStore>(
    alloc: Global,
    s: Setting,
    store: &S,
    batch: &mut Batch,
    id: CallId,
    outcome: Outcome,
) -> Result<(), NoMemory>
    requires setting { IsSetting s }
    requires client { IsSmall id.client }
    requires spelled { HasSpellingOutcome outcome }
    ensures { OnOk result (batch.new ≡ batch.old ++ outcome_writes s (S.meaning store.now) id outcome) }
{
    let Some(last) = last_at(s, store, id.client) else {
        return Ok(());
    };
    if last.number != id.number {
        return Ok(());
    }
    let kept = Kept {
        number: last.number,
        outcome,
    };
    push_client(alloc, s, batch, id.client, &kept)
}

/// Nothing changes, and this is the answer.
pub(crate) fn still(alloc: Global, answer: Applied) -> Plan
    ensures { result ≡ record { batch = []; turn = None; answer = answer } }
{
    Plan {
        batch: Batch::new(alloc),
        turn: None,
        answer,
    }
}

/// The call's number is kept with this outcome, and this is the answer. Refused for want of memory alone.
pub(crate) fn keep(
    alloc: Global,
    s: Setting,
    id: CallId,
    outcome: Outcome,
    answer: Applied,
) -> Result<Plan, NoMemory>
    requires setting { IsSetting s }
    requires client { IsSmall id.client }
    requires spelled { HasSpellingOutcome outcome }
    ensures plan { IfOk result (λ plan. plan ≡ record { batch = client_writes s id.client (record { number = id.number; outcome = outcome }); turn = None; answer = answer }) }
    ensures number { id.number < 2 ^ 64 }
    ensures fits { IfOk result (λ _. FitsOutcome outcome) }
{
    let mut batch = Batch::new(alloc);
    let kept = Kept {
        number: id.number,
        outcome,
    };
    push_client(alloc, s, &mut batch, id.client, &kept)?;
    Ok(Plan {
        batch,
        turn: None,
        answer,
    })
}
