//! A client makes a call.
ghost use Rattle.std.specs.Prelude.{◌≡◌};
ghost use Rattle.graph_model.specs.Ops.{is_op};

use crate::callers::{Caller, is_client, is_next};
use crate::chains::Chains;
use crate::posts::push_post;
use chain_leader::{ChainBody, entry_of, part_of_op};
use chain_world::ChainEnd;
use graph_model::{CallId, GStep, Op};
use lists::NoMemory;
use part_keys::{PartEntry, VidKind, belongs};
use std::alloc::Global;

// Whether an op on edges has a list of edges, as its type keeps it.
fn is_op(op: &Op) -> bool
    ensures { result ≡ is_op op.now }
{
    match op {
        Op::PutEdges(rows, _) => 0 < rows.len(),
        Op::DelEdges(edges) => 0 < edges.len(),
        _ => true,
    }
}

impl Chains {
    ghost use Rattle.std.specs.Prelude.{◌≡◌, ◌<◌, ℕ, OnOk};
    ghost use Rattle.chain_leader.specs.Calls.{entry_of, part_of_op};
    ghost use Rattle.chain_world.specs.Events.{with_invoke};
    ghost use Rattle.chain_world.specs.World.{after};
    ghost use Rattle.chain_world.specs.declared.event.ChainEvent.TheVariants as happens;
    ghost use Rattle.chain_run.specs.Shows.{world_of};

    // A client that has no open call makes its next one, and its Request is sent.
    pub(crate) fn invoke(
        &mut self,
        alloc: Global,
        ids: VidKind,
        parts: u32,
        id: CallId,
        op: &Op,
    ) -> Result<(), NoMemory>
        requires { 0 < parts }
        ensures { OnOk result (world_of self.new ≡ after ids parts (world_of self.old) (happens.Invoke id op.now)) }
    {
        if !is_client(id.client) {
            return Ok(());
        }
        if !is_next(&self.callers, id) {
            return Ok(());
        }
        if !is_op(op) {
            return Ok(());
        }
        let part = part_of_op(parts, op);
        let entry = entry_of(alloc, id, op.copy(alloc)?)?;
        if !belongs(ids, parts, part, &entry) {
            return Ok(());
        }
        self.call(alloc, part, id, op, entry)
    }

    // The call is made.
    fn call(
        &mut self,
        alloc: Global,
        part: u32,
        id: CallId,
        op: &Op,
        entry: PartEntry,
    ) -> Result<(), NoMemory>
        ensures { (parts : ℕ) → part ≡ part_of_op parts op.now → entry ≡ entry_of id op.now → OnOk result (world_of self.new ≡ with_invoke parts (world_of self.old) id op.now) }
    {
        self.steps.push(GStep::Invoke(id, op.copy(alloc)?))?;
        let caller = Caller {
            last: id.number,
            asks: Some((id, op.copy(alloc)?)),
        };
        self.callers.put(id.client as u64, caller)?;
        let body = ChainBody::Request(id.number, entry);
        push_post(
            &mut self.posts,
            ChainEnd::Client(id.client),
            ChainEnd::Part(part),
            body,
            0,
        )
    }
}
