//! A part in memory.
ghost use Rattle.std.specs.Prelude.{◌≡◌};
ghost use Rattle.part_rules.specs.Machine.{with_outcome};

use crate::in_halves::InHalves;
use crate::numbered::Numbered;
use crate::out_halves::OutHalves;
use crate::standing::Standing;
use crate::tags::Tags;
use graph_model::CallId;
use lists::NoMemory;
use part_rules::{Kept, Outcome};
use std::alloc::Global;

/// A part in memory: the rows of its tags and its out-halves, its in-halves with their numbers, the chains that stand, the
/// guards by source part, and of each client the last call.
#[derive(Drop)]
pub struct PartState {
    pub(crate) tags: Tags,
    pub(crate) out: OutHalves,
    pub(crate) inn: InHalves,
    pub(crate) chains: Standing,
    pub(crate) guards: Numbered<u64>,
    pub(crate) clients: Numbered<Kept>,
}

// The outcome of a client's last call is this now, where it is the call of this number.
fn with_outcome(last: Kept, number: u64, outcome: Outcome) -> Kept
    ensures { result ≡ with_outcome number outcome last }
{
    if last.number == number {
        return Kept {
            number: last.number,
            outcome,
        };
    }
    last
}

impl PartState {
    ghost use Rattle.std.specs.Prelude.{◌≡◌, OnOk};
    ghost use Rattle.std.specs.Option.{unwrap_or};
    ghost use Rattle.part_rules.specs.Part.{blank, guard_of};
    ghost use Rattle.part_rules.specs.Machine.{keeping, coming_to};
    ghost use Rattle.part_fold.specs.State.{part_of};

    /// A part before its first entry.
    pub fn new(alloc: Global) -> PartState
        ensures { part_of result ≡ blank }
    {
        PartState {
            tags: Tags::new(alloc),
            out: OutHalves::new(alloc),
            inn: InHalves::new(alloc),
            chains: Standing::new(alloc),
            guards: Numbered::new(alloc),
            clients: Numbered::new(alloc),
        }
    }

    /// The chains that stand.
    pub fn chains(&self) -> &Standing
        ensures { result.now ≡ (part_of self.now).chains }
    {
        &self.chains
    }

    // The call's number is kept, with this outcome.
    pub(crate) fn keep(&mut self, id: CallId, outcome: Outcome) -> Result<(), NoMemory>
        ensures { OnOk result (part_of self.new ≡ keeping (part_of self.old) id outcome) }
    {
        let kept = Kept {
            number: id.number,
            outcome,
        };
        self.clients.put(id.client as u64, kept)?;
        Ok(())
    }

    // The call comes to this outcome, where it is its client's last one.
    pub(crate) fn come_to(&mut self, id: CallId, outcome: Outcome) -> Result<(), NoMemory>
        ensures { OnOk result (part_of self.new ≡ coming_to (part_of self.old) id outcome) }
    {
        let Some(last) = self.clients.get(id.client as u64) else {
            return Ok(());
        };
        let kept = with_outcome(*last, id.number, outcome);
        self.clients.put(id.client as u64, kept)?;
        Ok(())
    }

    // The guard for a source part.
    pub(crate) fn guard(&self, source: u32) -> u64
        ensures { result ≡ guard_of (part_of self.now) source }
    {
        match self.guards.get(source as u64) {
            Some(guard) => *guard,
            None => 0,
        }
    }
}
