//! What is read of the store for the edges of an entry.
ghost use Rattle.std.specs.Prelude.{◌≡◌, [], ◌∷◌, ◌++◌, cond, not, ◌&&◌, IfOk, IfSome, OnOk};
ghost use Rattle.std.specs.List.{filter};
ghost use Rattle.std.specs.Option.{option_map};
ghost use Rattle.graph_bytes.specs.Fits.{IsSmall};
ghost use Rattle.graph_model.specs.Edges.{edges_in};
ghost use Rattle.part_rules.specs.Part.{Part, chain_on_any, is_fresh, all_written};
ghost use Rattle.part_store.specs.Keeps.{Keeps};
ghost use Rattle.part_store.specs.Settings.{IsSetting, AreFrom, AreInto, AreEnds};
ghost use Rattle.part_machine.specs.Edges.{is_taken, is_left, is_lower, id_of};

use graph_model::{CallId, EdgeId, Half};
use kv_part::KeyStore;
use lists::{Listed, NoMemory};
use part_store::{Setting, chain_at, has_out, number_at};
use std::alloc::Global;

/// The call of the chain on the first of these edges that has one.
pub(crate) fn call_on_any<S: KeyStore>(
    s: Setting,
    store: &S,
    list: &[(EdgeId, Half)],
) -> Option<CallId>
    requires setting { IsSetting s }
    requires from { AreFrom s list.now }
    ensures call { (p : Part) → Keeps s p (S.meaning store.now) → result ≡ option_map id_of (chain_on_any p (edges_in list.now)) }
    ensures small { IfSome result (λ id. IsSmall id.client) }
{
    for half in list {
        if let Some((_, id)) = chain_at(s, store, &half.0) {
            return Some(id);
        }
    }
    None
}

// Puts a copy of the pair at the end, if it is wanted.
fn push_if(
    alloc: Global,
    made: &mut Listed<(EdgeId, Half)>,
    half: &(EdgeId, Half),
    wanted: bool,
) -> Result<(), NoMemory>
    ensures { OnOk result (made.new ≡ made.old ++ cond wanted (half.now ∷ []) []) }
{
    if wanted {
        made.push((half.0, half.1.copy(alloc)?))?;
    }
    Ok(())
}

// Whether a Prime takes an edge whose out-half is here or not.
fn takes(absent: bool, here: bool) -> bool
    ensures { result ≡ not (absent && here) }
{
    !(absent && here)
}

/// The edges that a Prime takes: with the flag those whose out-half isn't here. Refused for want of memory alone.
pub(crate) fn taken_of<S: KeyStore>(
    alloc: Global,
    s: Setting,
    store: &S,
    list: &[(EdgeId, Half)],
    absent: bool,
) -> Result<Listed<(EdgeId, Half)>, NoMemory>
    requires setting { IsSetting s }
    requires from { AreFrom s list.now }
    ensures taken { (p : Part) → Keeps s p (S.meaning store.now) → IfOk result (λ taken. taken ≡ filter (is_taken p absent) list.now) }
    ensures left { IfOk result (λ taken. taken ≡ filter (is_left s (S.meaning store.now) absent) list.now) }
{
    let mut made = Listed::new(alloc);
    for half in list {
        let here = has_out(s, store, &half.0);
        push_if(alloc, &mut made, half, takes(absent, here))?;
    }
    Ok(made)
}

/// The in-halves that chain `v` writes: neither it nor a later one wrote them before. Refused for want of memory alone.
pub(crate) fn fresh_of<S: KeyStore>(
    alloc: Global,
    s: Setting,
    store: &S,
    v: u64,
    list: &[(EdgeId, Half)],
) -> Result<Listed<(EdgeId, Half)>, NoMemory>
    requires setting { IsSetting s }
    requires into { AreInto s list.now }
    ensures fresh { (p : Part) → Keeps s p (S.meaning store.now) → IfOk result (λ fresh. fresh ≡ filter (is_fresh p v) list.now) }
    ensures left { IfOk result (λ fresh. fresh ≡ filter (is_lower s (S.meaning store.now) v) list.now) }
{
    let mut made = Listed::new(alloc);
    for half in list {
        let number = number_at(s, store, &half.0);
        push_if(alloc, &mut made, half, number < v)?;
    }
    Ok(made)
}

/// Whether chain `v`, or a later one, wrote the in-half of each of the edges.
pub(crate) fn all_written<S: KeyStore>(s: Setting, store: &S, v: u64, edges: &[EdgeId]) -> bool
    requires setting { IsSetting s }
    requires into { AreEnds s edges.now }
    ensures { (p : Part) → Keeps s p (S.meaning store.now) → result ≡ all_written p v edges.now }
{
    for edge in edges {
        if number_at(s, store, edge) < v {
            return false;
        }
    }
    true
}
