//! What a leader does with the chains that start in its part.
ghost use Rattle.std.specs.Prelude.{◌≡◌, ◌≤◌, ◌<◌, ◌-◌, OnOk, OnErr, IfOk};
ghost use Rattle.chain_leader.specs.Rules.{added, message, mode_for, on_primed, on_remote, give_up, resume, on_fence};
ghost use Rattle.part_rules.specs.Machine.{mark};

use crate::table::ChainTable;
use graph_model::{CallId, EdgeHalves, Half};
use lists::NoMemory;
use part_keys::{ChainMsg, ChainState, InHalf, Mode, PartEntry, Policy, PrimeRec};
use std::alloc::Global;

/// A chain begins: it is added, and its Remote leaves. Refused for want of memory alone.
pub fn on_primed(alloc: Global, t: &mut ChainTable, rec: &PrimeRec) -> Result<ChainMsg, NoMemory>
    ensures table { OnOk result (t.new.0 ≡ (on_primed t.old.0 rec.now).0) }
    ensures sent { IfOk result (λ sent. sent ≡ (on_primed t.old.0 rec.now).1) }
    ensures err { OnErr result (t.new.0 ≡ t.old.0) }
    ensures room { t.old.1 - 1 ≤ t.new.1 }
{
    let list = rec.list.copy(alloc)?;
    t.reserve(1)?;
    t.add(rec.v, added(rec, list, Mode::Put));
    Ok(ChainMsg::Remote(rec.v))
}

/// The in-halves of a chain are written: the entry that ends it is asked for once.
pub fn on_remote(t: &mut ChainTable, v: u64) -> Option<PartEntry>
    ensures table { t.new.0 ≡ (on_remote t.old.0 v).0 }
    ensures room { t.new.1 ≡ t.old.1 }
    ensures asked { result ≡ (on_remote t.old.0 v).1 }
{
    let Some(chain) = t.get(v) else {
        return None;
    };
    if chain.asked {
        return None;
    }
    let entry = match chain.mode {
        Mode::Put => PartEntry::Local(v),
        Mode::Doubled => PartEntry::Close(v),
        Mode::Fence => return None,
    };
    t.ask(v);
    Some(entry)
}

/// A call is given up: the first chain of it that may be doubled is.
pub fn give_up(t: &mut ChainTable, id: CallId) -> Option<PartEntry>
    ensures table { t.new.0 ≡ (give_up t.old.0 id).0 }
    ensures room { t.new.1 ≡ t.old.1 }
    ensures asked { result ≡ (give_up t.old.0 id).1 }
{
    let Some(v) = t.first_to_double(id) else {
        return None;
    };
    t.double(v);
    Some(PartEntry::Double(v))
}

/// A chain that stands is taken up: it is added, or its tries rise. Its message leaves.
/// Refused for want of memory alone.
pub fn resume(
    alloc: Global,
    t: &mut ChainTable,
    rec: &PrimeRec,
    policy: Policy,
) -> Result<ChainMsg, NoMemory>
    ensures table { OnOk result (t.new.0 ≡ (resume t.old.0 rec.now policy).0) }
    ensures sent { IfOk result (λ sent. sent ≡ (resume t.old.0 rec.now policy).1) }
    ensures err { OnErr result (t.new.0 ≡ t.old.0) }
    ensures room { t.old.1 - 1 ≤ t.new.1 }
{
    let Some(chain) = t.get(rec.v) else {
        let list = rec.list.copy(alloc)?;
        t.reserve(1)?;
        let mode = mode_for(rec, policy);
        t.add(rec.v, added(rec, list, mode));
        return Ok(message(mode, rec.v));
    };
    let mode = chain.mode;
    t.retry(rec.v);
    Ok(message(mode, rec.v))
}

/// It is known whether a chain wrote its in-halves: the entry that ends it is asked for once.
pub fn on_fence(t: &mut ChainTable, v: u64, applied: bool) -> Option<PartEntry>
    ensures table { t.new.0 ≡ (on_fence t.old.0 v applied).0 }
    ensures room { t.new.1 ≡ t.old.1 }
    ensures asked { result ≡ (on_fence t.old.0 v applied).1 }
{
    let Some(chain) = t.get(v) else {
        return None;
    };
    if chain.asked {
        return None;
    }
    match chain.mode {
        Mode::Put => return None,
        Mode::Doubled => return None,
        Mode::Fence => {}
    }
    t.ask(v);
    if applied {
        Some(PartEntry::Local(v))
    } else {
        Some(PartEntry::Abort(v))
    }
}

/// The marker that a removal leaves in an in-half of that kept number.
pub fn mark(kept: u64, v: u64) -> Option<InHalf>
    ensures { result ≡ mark kept v }
{
    if v <= kept {
        return None;
    }
    Some(InHalf {
        v: v,
        half: Half::Absent,
    })
}

/// A chain as its record has it, in that mode, with the record's list.
pub(crate) fn added(rec: &PrimeRec, list: EdgeHalves, mode: Mode) -> ChainState
    requires { list ≡ rec.now.list }
    ensures { result ≡ added rec.now mode }
{
    ChainState {
        id: rec.id,
        remote: rec.remote,
        list: list,
        mode: mode,
        asked: false,
        tries: 0,
        hint: 0,
    }
}

/// The mode in which a chain is taken up.
pub(crate) fn mode_for(rec: &PrimeRec, policy: Policy) -> Mode
    ensures { result ≡ mode_for rec.now policy }
{
    if rec.double {
        return Mode::Doubled;
    }
    match policy {
        Policy::Forward => Mode::Put,
        Policy::Cancel => Mode::Fence,
    }
}

/// What is sent for a chain in that mode.
pub(crate) fn message(mode: Mode, v: u64) -> ChainMsg
    ensures { result ≡ message mode v }
{
    match mode {
        Mode::Put => ChainMsg::Remote(v),
        Mode::Doubled => ChainMsg::Remote(v),
        Mode::Fence => ChainMsg::Fence(v),
    }
}
