//! The writes of a list of facts. Each is refused for want of memory alone.
ghost use Rattle.std.specs.Prelude.{◌≡◌, ◌++◌, OnOk};
ghost use Rattle.std.specs.List.{AllByRecursion};
ghost use Rattle.graph_bytes.specs.Fits.{IsSmall};
ghost use Rattle.part_keys.specs.declared.key.Key.TheVariants as keys;
ghost use Rattle.part_keys.specs.Keys.{FitsKey};
ghost use Rattle.part_store.specs.Keeps.{FitsOut, FitsInto, FitsTag};
ghost use Rattle.part_store.specs.Settings.{IsSetting, IsVertexOf, AreFrom, AreInto};
ghost use Rattle.part_store.specs.Writes.{out_writes, in_writes, standing_writes, standing_removals, tag_removals};

use crate::setting::Setting;
use crate::writes::{push_chain, push_in, push_no_chain, push_no_tag, push_out};
use graph_model::{CallId, EdgeId, Half, Vid};
use kv_part::Batch;
use lists::NoMemory;
use std::alloc::Global;

/// Each out-half := its half.
pub fn push_outs(
    alloc: Global,
    s: Setting,
    batch: &mut Batch,
    list: &[(EdgeId, Half)],
) -> Result<(), NoMemory>
    requires setting { IsSetting s }
    requires from { AreFrom s list.now }
    ensures ok { OnOk result (batch.new ≡ batch.old ++ out_writes s list.now) }
    ensures fits { OnOk result (AllByRecursion (FitsOut s) list.now) }
{
    for item in list {
        push_out(alloc, s, batch, &item.0, &item.1)?;
    }
    Ok(())
}

/// Each in-half := its half, with number v.
pub fn push_ins(
    alloc: Global,
    s: Setting,
    batch: &mut Batch,
    v: u64,
    list: &[(EdgeId, Half)],
) -> Result<(), NoMemory>
    requires setting { IsSetting s }
    requires into { AreInto s list.now }
    ensures ok { OnOk result (batch.new ≡ batch.old ++ in_writes s v list.now) }
    ensures fits { OnOk result (AllByRecursion (FitsInto s) list.now) }
{
    for item in list {
        push_in(alloc, s, batch, v, &item.0, &item.1)?;
    }
    Ok(())
}

/// Chain v of this call stands on each edge, double or not.
pub fn push_chains(
    alloc: Global,
    s: Setting,
    double: bool,
    batch: &mut Batch,
    v: u64,
    id: &CallId,
    list: &[(EdgeId, Half)],
) -> Result<(), NoMemory>
    requires setting { IsSetting s }
    requires client { IsSmall id.now.client }
    requires from { AreFrom s list.now }
    ensures ok { OnOk result (batch.new ≡ batch.old ++ standing_writes s double v id.now list.now) }
    ensures fits { OnOk result (AllByRecursion (FitsOut s) list.now) }
{
    for item in list {
        push_chain(alloc, s, double, batch, v, id, item)?;
    }
    Ok(())
}

/// No chain that is so, double or not, stands on any of the edges.
pub fn push_no_chains(
    alloc: Global,
    s: Setting,
    double: bool,
    batch: &mut Batch,
    list: &[(EdgeId, Half)],
) -> Result<(), NoMemory>
    requires setting { IsSetting s }
    requires from { AreFrom s list.now }
    ensures { OnOk result (batch.new ≡ batch.old ++ standing_removals s double list.now) }
{
    for item in list {
        push_no_chain(alloc, s, double, batch, &item.0)?;
    }
    Ok(())
}

/// These tags of the vertex are removed.
pub fn push_no_tags(
    alloc: Global,
    s: Setting,
    batch: &mut Batch,
    v: &Vid,
    tags: &[u32],
) -> Result<(), NoMemory>
    requires setting { IsSetting s }
    requires vertex { IsVertexOf s v.now }
    ensures ok { OnOk result (batch.new ≡ batch.old ++ tag_removals s v.now tags.now) }
    ensures fits { OnOk result (AllByRecursion (FitsTag s v.now) tags.now) }
{
    for tag in tags {
        push_no_tag(alloc, s, batch, v, *tag)?;
    }
    Ok(())
}
