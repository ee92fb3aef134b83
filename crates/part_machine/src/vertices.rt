//! What a call on a vertex does.
ghost use Rattle.std.specs.Prelude.{◌≡◌, ◌<◌, ◌^◌, ◌&&◌, ℕ, IfOk};
ghost use Rattle.graph_bytes.specs.Fits.{IsSmall};
ghost use Rattle.part_keys.specs.declared.entry.PartEntry.TheVariants as entry;
ghost use Rattle.part_rules.specs.Part.{Part};
ghost use Rattle.part_keys.specs.Keys.{FitsKey};
ghost use Rattle.part_keys.specs.declared.key.Key.TheVariants as keys;
ghost use Rattle.part_store.specs.Reads.{tag_is_in};
ghost use Rattle.part_store.specs.Settings.{IsSetting, IsVertexOf};
ghost use Rattle.part_machine.specs.Chains.{Chains};
ghost use Rattle.part_machine.specs.Plans.{IsState, IsNext, IsPlan};
ghost use Rattle.part_machine.specs.Calls.{finished};
ghost use Rattle.part_machine.specs.Taken.{IsChange};

use crate::calls::{keep, seen, still};
use crate::plan::Plan;
use graph_model::{CallId, Op, Vid};
use kv_part::{Batch, KeyStore};
use lists::NoMemory;
use part_rules::{Applied, Kept, Outcome};
use part_store::{Setting, has_tag, push_client, push_no_tags, push_tag, tags_at};
use std::alloc::Global;

// The call is Fine, behind these writes.
fn finish(alloc: Global, s: Setting, mut batch: Batch, id: CallId) -> Result<Plan, NoMemory>
    requires setting { IsSetting s }
    requires client { IsSmall id.client }
    ensures plan { IfOk result (λ plan. plan ≡ finished s id batch) }
    ensures number { id.number < 2 ^ 64 }
{
    let kept = Kept {
        number: id.number,
        outcome: Outcome::Fine,
    };
    push_client(alloc, s, &mut batch, id.client, &kept)?;
    Ok(Plan {
        batch,
        turn: None,
        answer: Applied::Finished(id),
    })
}

// Whether a put leaves the tag: with the flag, where it has a row.
fn tag_stays<S: KeyStore>(s: Setting, store: &S, v: &Vid, tag: u32, absent: bool) -> bool
    requires setting { IsSetting s }
    requires vertex { IsVertexOf s v.now }
    ensures is { result ≡ (absent && tag_is_in s (S.meaning store.now) v.now tag) }
    ensures fits { FitsKey s.ids (keys.Tag s.part v.now tag) }
{
    let there = has_tag(s, store, v, tag);
    absent && there
}

/// What a call on a vertex does: a call that was seen is answered again; a put with the flag over a row that is here is
/// skipped; else the row is written, or all tags of the vertex are removed. Refused for want of memory alone.
pub(crate) fn plan_vertex<S: KeyStore>(
    alloc: Global,
    s: Setting,
    store: &S,
    id: CallId,
    op: &Op,
) -> Result<Plan, NoMemory>
    requires setting { IsSetting s }
    requires client { IsSmall id.client }
    requires change { IsChange s op.now }
    ensures { (p : Part) (chains : Chains) (next index : ℕ) → IsNext next index → IsState s next p (S.meaning store.now) chains
        → IfOk result (IsPlan s index (entry.Vertex id op.now) p (S.meaning store.now) chains) }
{
    if let Some(answer) = seen(s, store, id) {
        return Ok(still(alloc, answer));
    }
    let mut batch = Batch::new(alloc);
    match op {
        Op::PutVertex(v, tag, row, absent) => {
            if tag_stays(s, store, v, *tag, *absent) {
                return keep(alloc, s, id, Outcome::Skipped, Applied::Skipped);
            }
            push_tag(alloc, s, &mut batch, v, *tag, row)?;
            finish(alloc, s, batch, id)
        }
        Op::DelVertex(v) => {
            let tags = tags_at(alloc, s, store, v)?;
            push_no_tags(alloc, s, &mut batch, v, tags.as_slice())?;
            finish(alloc, s, batch, id)
        }
        Op::PutEdges(..) => Ok(still(alloc, Applied::Nothing)),
        Op::DelEdges(_) => Ok(still(alloc, Applied::Nothing)),
        Op::Read(_) => Ok(still(alloc, Applied::Nothing)),
    }
}
