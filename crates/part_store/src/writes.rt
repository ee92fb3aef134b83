//! The writes of one fact.
ghost use Rattle.std.specs.Prelude.{◌≡◌, ◌<◌, ◌^◌, [], ◌∷◌, ◌++◌, Some, None, OnOk};
ghost use Rattle.graph_bytes.specs.Fits.{IsSmall, HasSpellingRow, HasSpellingHalf, FitsRow, FitsHalf, FitsCall};
ghost use Rattle.graph_model.specs.declared.edge_id.EdgeId.{EdgeId as Edge};
ghost use Rattle.kv_part.specs.declared.batch.Write.TheVariants.{Put, Remove};
ghost use Rattle.part_keys.specs.declared.key.Key.TheVariants as keys;
ghost use Rattle.part_keys.specs.Keys.{key, FitsKey};
ghost use Rattle.part_rules.specs.FoldLaws.{by};
ghost use Rattle.part_store.specs.Keeps.{FitsOut, FitsOutcome};
ghost use Rattle.part_store.specs.Settings.{IsSetting, IsVertexOf, IsFrom, IsInto, HasSpellingOutcome};
ghost use Rattle.part_store.specs.Values.{in_value, prime_value, guard_value, outcome, client_value};
ghost use Rattle.part_store.specs.Writes.{set_at, out_value, standing_key, guard_writes, client_writes, tag_writes};

use crate::keys::{client_key, double_key, guard_key, prime_key};
use crate::setting::Setting;
use byte_fields::Writer;
use graph_bytes::{put_call, put_half, put_row};
use graph_model::{CallId, EdgeId, Half, Row, Vid};
use kv_part::{Batch, Write};
use lists::{Listed, NoMemory};
use part_keys::{KeyBytes, in_key, out_key, tag_key};
use part_rules::{Kept, Outcome};
use std::alloc::Global;

// The key has this value from now on.
fn push_put(alloc: Global, batch: &mut Batch, key: &KeyBytes, value: Writer) -> Result<(), NoMemory>
    ensures { OnOk result (batch.new ≡ batch.old ++ Put key.now value ∷ []) }
{
    let bytes = Listed::from_slice(alloc, key.as_slice())?;
    batch.push(Write::Put(bytes, value.into_bytes()))
}

// The key has no value from now on.
fn push_remove(alloc: Global, batch: &mut Batch, key: &KeyBytes) -> Result<(), NoMemory>
    ensures { OnOk result (batch.new ≡ batch.old ++ Remove key.now ∷ []) }
{
    let bytes = Listed::from_slice(alloc, key.as_slice())?;
    batch.push(Write::Remove(bytes))
}

/// The tag of the vertex := this row. Refused for want of memory alone.
pub fn push_tag(
    alloc: Global,
    s: Setting,
    batch: &mut Batch,
    v: &Vid,
    tag: u32,
    vals: &Row,
) -> Result<(), NoMemory>
    requires setting { IsSetting s }
    requires vertex { IsVertexOf s v.now }
    requires spelled { HasSpellingRow vals.now }
    ensures ok { OnOk result (batch.new ≡ batch.old ++ tag_writes s v.now tag vals.now) }
    ensures key { OnOk result (FitsKey s.ids (keys.Tag s.part v.now tag)) }
    ensures fits { OnOk result (FitsRow vals.now) }
{
    let key = tag_key(s.ids, s.parts, *v, tag);
    let mut value = Writer::new(alloc);
    put_row(&mut value, vals)?;
    push_put(alloc, batch, &key, value)
}

// The tag of the vertex is removed.
pub(crate) fn push_no_tag(
    alloc: Global,
    s: Setting,
    batch: &mut Batch,
    v: &Vid,
    tag: u32,
) -> Result<(), NoMemory>
    requires setting { IsSetting s }
    requires vertex { IsVertexOf s v.now }
    ensures ok { OnOk result (batch.new ≡ batch.old ++ set_at s.ids (keys.Tag s.part v.now tag) None ∷ []) }
    ensures fits { OnOk result (FitsKey s.ids (keys.Tag s.part v.now tag)) }
{
    let key = tag_key(s.ids, s.parts, *v, tag);
    push_remove(alloc, batch, &key)
}

// The out-half := this half.
pub(crate) fn push_out(
    alloc: Global,
    s: Setting,
    batch: &mut Batch,
    e: &EdgeId,
    half: &Half,
) -> Result<(), NoMemory>
    requires setting { IsSetting s }
    requires from { IsFrom s e.now }
    requires spelled { HasSpellingHalf half.now }
    ensures ok { OnOk result (batch.new ≡ batch.old ++ set_at s.ids (keys.OutEdge s.part e.now) (out_value (e.now, half.now)) ∷ []) }
    ensures fits { OnOk result (FitsOut s (e.now, half.now)) }
{
    let key = out_key(s.ids, s.parts, e);
    match half {
        Half::Absent => push_remove(alloc, batch, &key),
        Half::Here(vals) => {
            let mut value = Writer::new(alloc);
            put_row(&mut value, vals)?;
            push_put(alloc, batch, &key, value)
        }
    }
}

// The in-half := this half, with number v.
pub(crate) fn push_in(
    alloc: Global,
    s: Setting,
    batch: &mut Batch,
    v: u64,
    e: &EdgeId,
    half: &Half,
) -> Result<(), NoMemory>
    requires setting { IsSetting s }
    requires into { IsInto s e.now }
    requires spelled { HasSpellingHalf half.now }
    ensures ok { OnOk result (batch.new ≡ batch.old ++ set_at s.ids (keys.InEdge s.part e.now) (Some (in_value (by v half.now))) ∷ []) }
    ensures fits { OnOk result (FitsKey s.ids (keys.InEdge s.part e.now) × FitsHalf half.now) }
{
    let key = in_key(s.ids, s.parts, e);
    let mut value = Writer::new(alloc);
    value.put_u64(v)?;
    put_half(&mut value, half)?;
    push_put(alloc, batch, &key, value)
}

// The key of a chain on an edge, by whether the chain is double.
fn standing_key(s: Setting, double: bool, e: &EdgeId) -> KeyBytes
    requires setting { IsSetting s }
    requires from { IsFrom s e.now }
    ensures bytes { result ≡ key s.ids (standing_key double s.part e.now) }
    ensures fits { FitsKey s.ids (keys.OutEdge s.part e.now) }
{
    if double {
        double_key(s.ids, s.parts, e)
    } else {
        prime_key(s.ids, s.parts, e)
    }
}

// Chain v of this call stands on the edge, and gives it this half.
pub(crate) fn push_chain(
    alloc: Global,
    s: Setting,
    double: bool,
    batch: &mut Batch,
    v: u64,
    id: &CallId,
    item: &(EdgeId, Half),
) -> Result<(), NoMemory>
    requires setting { IsSetting s }
    requires client { IsSmall id.now.client }
    requires from { IsFrom s item.now.0 }
    requires spelled { HasSpellingHalf item.now.1 }
    ensures ok { OnOk result (batch.new ≡ batch.old ++ set_at s.ids (standing_key double s.part item.now.0) (Some (prime_value v id.now item.now.1)) ∷ []) }
    ensures fits { OnOk result (FitsOut s item.now) }
{
    let key = standing_key(s, double, &item.0);
    let mut value = Writer::new(alloc);
    value.put_u64(v)?;
    put_call(&mut value, id)?;
    put_half(&mut value, &item.1)?;
    push_put(alloc, batch, &key, value)
}

// No chain that is so stands on the edge.
pub(crate) fn push_no_chain(
    alloc: Global,
    s: Setting,
    double: bool,
    batch: &mut Batch,
    e: &EdgeId,
) -> Result<(), NoMemory>
    requires setting { IsSetting s }
    requires from { IsFrom s e.now }
    ensures ok { OnOk result (batch.new ≡ batch.old ++ set_at s.ids (standing_key double s.part e.now) None ∷ []) }
    ensures fits { OnOk result (FitsKey s.ids (keys.OutEdge s.part e.now)) }
{
    let key = standing_key(s, double, e);
    push_remove(alloc, batch, &key)
}

/// The guard for a source part := this term. Refused for want of memory alone.
pub fn push_guard(
    alloc: Global,
    s: Setting,
    batch: &mut Batch,
    source: u32,
    term: u64,
) -> Result<(), NoMemory>
    requires setting { IsSetting s }
    requires source { IsSmall source }
    ensures ok { OnOk result (batch.new ≡ batch.old ++ guard_writes s source term) }
    ensures fits { FitsKey s.ids (keys.Guard s.part source) × (term < 2 ^ 64) }
{
    let key = guard_key(s.part, source);
    let mut value = Writer::new(alloc);
    value.put_u64(term)?;
    push_put(alloc, batch, &key, value)
}

fn put_outcome(out: &mut Writer, came: &Outcome) -> Result<(), NoMemory>
    requires { HasSpellingOutcome came.now }
    ensures ok { OnOk result (out.new ≡ out.old ++ outcome came.now) }
    ensures fits { OnOk result (FitsOutcome came.now) }
{
    match came {
        Outcome::Open => out.put_byte(0),
        Outcome::Fine => out.put_byte(1),
        Outcome::Skipped => out.put_byte(2),
        Outcome::Pending => out.put_byte(3),
        Outcome::Cancelled => out.put_byte(4),
        Outcome::Conflict(id) => {
            out.put_byte(5)?;
            put_call(out, id)
        }
    }
}

/// The client's last call := this. Refused for want of memory alone.
pub fn push_client(
    alloc: Global,
    s: Setting,
    batch: &mut Batch,
    client: u32,
    last: &Kept,
) -> Result<(), NoMemory>
    requires setting { IsSetting s }
    requires client { IsSmall client }
    requires spelled { HasSpellingOutcome last.now.outcome }
    ensures ok { OnOk result (batch.new ≡ batch.old ++ client_writes s client last.now) }
    ensures key { FitsKey s.ids (keys.Client s.part client) × (last.now.number < 2 ^ 64) }
    ensures fits { OnOk result (FitsOutcome last.now.outcome) }
{
    let key = client_key(s.part, client);
    let mut value = Writer::new(alloc);
    value.put_u64(last.number)?;
    put_outcome(&mut value, &last.outcome)?;
    push_put(alloc, batch, &key, value)
}
