//! A walk's next read, made ready to begin.
ghost use Rattle.std.specs.Prelude.{◌≡◌, ◌<◌, true, Some, OnOk, OnErr, IfOk};
ghost use Rattle.std.specs.Option.{is_some, option_map};
ghost use Rattle.graph_model.specs.declared.op.Op.TheVariants.{Read};
ghost use Rattle.statement_run.specs.Call.{IsReady};
ghost use Rattle.traversal.specs.Trail as trail;

use crate::call::{Begun, OpenCall};
use crate::effects::Invoked;
use chain_leader::ChainBody;
use graph_model::{CallId, Op, Query, Types, Vid, View};
use lists::NoMemory;
use ngql_syntax::Way;
use part_keys::{PartEntry, part_of_query};
use replica_model::{Body, Packet, Place, To};
use schema_book::GoPlan;
use std::alloc::Global;
use traversal::{Walk, WalkRefused};

/// The read of a vertex.
fn read_of(way: Way, v: &Vid, types: Types) -> Query
    ensures { result ≡ trail.read_of way types v.now }
{
    match way {
        Way::Outward => Query::Out(*v, types),
        Way::Inward => Query::In(*v, types),
        Way::Both => Query::Both(*v, types),
    }
}

/// A walk is fed what its read found, and its next read, if one comes, is ready to begin under a name. Refused for want of memory
/// alone, and then the walk is as it was.
pub(crate) fn walked(
    alloc: Global,
    id: CallId,
    parts: u32,
    plan: &GoPlan,
    walk: &mut Walk,
    view: View,
) -> Result<Option<Begun>, NoMemory>
    requires parts { 0 < parts }
    requires needs { is_some (trail.next_of walk.old) ≡ true }
    requires types { walk.old.types ≡ plan.now.types }
    requires way { walk.old.way ≡ plan.now.way }
    ensures fed { OnOk result (walk.new ≡ trail.fed walk.old view) }
    ensures ready { IfOk result (IsReady id parts (option_map Read (trail.need_of walk.new))) }
    ensures err { OnErr result (walk.new ≡ walk.old) }
{
    let kept = plan.types.copy(alloc)?;
    let told = plan.types.copy(alloc)?;
    let sent = plan.types.copy(alloc)?;
    match walk.feed(alloc, view) {
        Ok(()) => {}
        Err(WalkRefused::TooWide) => return Ok(None),
        Err(WalkRefused::NoMemory) => return Err(NoMemory),
    }
    let Some(v) = walk.next_vertex() else {
        return Ok(None);
    };
    Ok(Some(begun_read(
        id,
        parts,
        read_of(plan.way, &v, kept),
        read_of(plan.way, &v, told),
        read_of(plan.way, &v, sent),
    )))
}

/// A read, handed over three times, ready to begin under a name.
fn begun_read(id: CallId, parts: u32, kept: Query, told: Query, sent: Query) -> Begun
    requires parts { 0 < parts }
    requires told { told ≡ kept }
    requires sent { sent ≡ kept }
    ensures { IsReady id parts (Some (Read kept)) (Some result) }
{
    let part = part_of_query(parts, &sent);
    Begun {
        call: OpenCall {
            id,
            op: Op::Read(kept),
            parts,
            count: 0,
            hint: 0,
        },
        invoke: Invoked {
            id,
            op: Op::Read(told),
        },
        packet: Packet {
            from: Place::Client(id.client),
            to: To::Part(part, 0),
            body: Body::Chain(ChainBody::Request(id.number, PartEntry::Read(id, sent))),
        },
    }
}
