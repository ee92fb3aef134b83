//! A proposal is decided, and gives its graph steps.
ghost use Rattle.std.specs.Prelude.{◌≡◌, ◌++◌, OnOk};
ghost use Rattle.part_fold.specs.State.{part_of};
ghost use Rattle.part_rules.specs.Part.{Part};
ghost use Rattle.raft_log.specs.Decided.{count_term};
ghost use Rattle.chain_world.specs.Ledger.{call_at, primed_steps, ended_steps, vertex_steps, remote_steps, steps_of_item};
ghost use Rattle.chain_run.specs.Shows.{list_in};
ghost use Rattle.chain_run.specs.Steps.{item_writes};

use crate::chains::{Chains, Decided, Steps, is_part};
use crate::leaders::Seat;
use crate::leading::are_at_most;
use crate::listing::{item_at, list_of, push_to};
use graph_model::{CallId, GStep};
use lists::{Copied, NoMemory};
use part_fold::{Numbered, PartState, folded};
use part_keys::{PartEntry, Proposal};
use part_rules::Applied;
use std::alloc::Global;

/// How many of these items are of the term.
pub(crate) fn count_term(items: &[(u64, Proposal)], term: u64) -> u64
    ensures { result ≡ count_term items.now term }
{
    let mut count = 0;
    for item in items {
        if item.0 == term {
            count += 1;
        }
    }
    count
}

// The call whose Prime has that index in a list, whose first item has index 1.
fn call_at(items: &[(u64, Proposal)], v: u64) -> Option<CallId>
    ensures { result ≡ call_at items.now v }
{
    if v == 0 {
        return None;
    }
    let Some(item) = items.get((v - 1) as usize) else {
        return None;
    };
    let Proposal::Made(entry) = &item.1 else {
        return None;
    };
    let PartEntry::Prime(id, _, _) = entry else {
        return None;
    };
    Some(*id)
}

// The steps of a Prime.
fn push_primed(steps: &mut Steps, id: CallId, said: &Applied) -> Result<(), NoMemory>
    ensures { OnOk result (steps.new ≡ steps.old ++ primed_steps id said.now) }
{
    match said {
        Applied::Begun(_) => steps.push(GStep::Begin(id)),
        Applied::Skipped => steps.push(GStep::Skip(id)),
        Applied::Conflict(_) => steps.push(GStep::Refuse(id)),
        _ => Ok(()),
    }
}

// The steps of a Local, a Double, a Close and an Abort.
fn push_ended(steps: &mut Steps, said: &Applied) -> Result<(), NoMemory>
    ensures { OnOk result (steps.new ≡ steps.old ++ ended_steps said.now) }
{
    match said {
        Applied::Settled(id) => {
            steps.push(GStep::OutHalf(*id))?;
            steps.push(GStep::Settle(*id))
        }
        Applied::Doubled(id) => steps.push(GStep::OutHalf(*id)),
        Applied::Closed(id) => steps.push(GStep::Settle(*id)),
        Applied::Aborted(id) => steps.push(GStep::Cancel(*id)),
        _ => Ok(()),
    }
}

// The steps of a Vertex.
fn push_vertex(steps: &mut Steps, id: CallId, said: &Applied) -> Result<(), NoMemory>
    ensures { OnOk result (steps.new ≡ steps.old ++ vertex_steps id said.now) }
{
    match said {
        Applied::Finished(_) => steps.push(GStep::Vertex(id)),
        Applied::Skipped => steps.push(GStep::Vertex(id)),
        _ => Ok(()),
    }
}

// The step of a Remote that wrote, or none.
fn push_remote(steps: &mut Steps, wrote: bool, call: Option<CallId>) -> Result<(), NoMemory>
    ensures { OnOk result (steps.new ≡ steps.old ++ remote_steps wrote call) }
{
    if !wrote {
        return Ok(());
    }
    let Some(id) = call else {
        return Ok(());
    };
    steps.push(GStep::InHalf(id))
}

// Whether an item writes at least one in-half of the part.
fn item_writes(machine: &PartState, item: &Proposal) -> bool
    ensures { result ≡ item_writes item.now (part_of machine.now) }
{
    let Proposal::Made(entry) = item else {
        return false;
    };
    machine.writes(entry)
}

// The steps of an item that was answered so, where it wrote an in-half or not.
fn push_steps(
    steps: &mut Steps,
    decided: &Numbered<Decided>,
    wrote: bool,
    item: &Proposal,
    said: &Applied,
) -> Result<(), NoMemory>
    ensures { (machine : Part) → wrote ≡ item_writes item.now machine → OnOk result (steps.new ≡ steps.old ++ steps_of_item (λ q v. call_at (list_in decided.now q) v) machine item.now said.now) }
{
    let Proposal::Made(entry) = item else {
        return Ok(());
    };
    match entry {
        PartEntry::Prime(id, _, _) => push_primed(steps, *id, said),
        PartEntry::Local(_) => push_ended(steps, said),
        PartEntry::Double(_) => push_ended(steps, said),
        PartEntry::Close(_) => push_ended(steps, said),
        PartEntry::Abort(_) => push_ended(steps, said),
        PartEntry::Remote(from, _, v, _) => {
            push_remote(steps, wrote, call_at(list_of(decided, *from), *v))
        }
        PartEntry::Fence(_, _, _, _) => Ok(()),
        PartEntry::Vertex(id, _) => push_vertex(steps, *id, said),
        PartEntry::Read(_, _) => Ok(()),
    }
}

impl Chains {
    ghost use Rattle.std.specs.Prelude.{◌≡◌, ◌<◌, OnOk};
    ghost use Rattle.chain_world.specs.Events.{with_decided};
    ghost use Rattle.chain_world.specs.State.{made_by};
    ghost use Rattle.part_keys.specs.declared.vid_kind.VidKind.{VidKind};
    ghost use Rattle.chain_world.specs.World.{after};
    ghost use Rattle.chain_world.specs.declared.event.ChainEvent.TheVariants as happens;
    ghost use Rattle.chain_run.specs.Shows.{world_of};

    // What the leader of a term has proposed, or what was proposed at term 0.
    fn made_by(&self, part: u32, term: u64) -> &[Proposal]
        ensures { result.now ≡ made_by (world_of self.now) part term }
    {
        if term == 0 {
            return list_of(&self.founded, part);
        }
        match self.leaders.get(Seat { part, term }) {
            Some(leader) => leader.made.as_slice(),
            None => &[],
        }
    }

    // The next proposal of a term is decided, where no decided one's is greater.
    pub(crate) fn decide(
        &mut self,
        alloc: Global,
        parts: u32,
        part: u32,
        term: u64,
        number: u64,
    ) -> Result<(), NoMemory>
        requires { 0 < parts }
        ensures { (ids : VidKind) → OnOk result (world_of self.new ≡ after ids parts (world_of self.old) (happens.Decide part term number)) }
    {
        if !is_part(parts, part) {
            return Ok(());
        }
        let decided = list_of(&self.decided, part);
        if !are_at_most(term, decided) {
            return Ok(());
        }
        if number != count_term(decided, term) {
            return Ok(());
        }
        let Some(item) = item_at(self.made_by(part, term), number) else {
            return Ok(());
        };
        let item = item.copied(alloc)?;
        self.append(alloc, parts, part, term, item)
    }

    // The item is decided.
    fn append(
        &mut self,
        alloc: Global,
        parts: u32,
        part: u32,
        term: u64,
        item: Proposal,
    ) -> Result<(), NoMemory>
        requires { 0 < parts }
        ensures { OnOk result (world_of self.new ≡ with_decided parts (world_of self.old) part term item) }
    {
        let decided = list_of(&self.decided, part);
        let index = decided.len() as u64 + 1;
        let mut machine = folded(alloc, parts, decided)?;
        let wrote = item_writes(&machine, &item);
        let said = machine.apply(alloc, parts, index, &item)?;
        push_steps(&mut self.steps, &self.decided, wrote, &item, &said)?;
        push_to(alloc, &mut self.decided, part, (term, item))
    }
}
