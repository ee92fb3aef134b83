//! What a Prime does.
use crate::edges::remote_of;
use crate::state::PartState;
use graph_model::{CallId, EdgeHalves};
use lists::NoMemory;
use part_keys::PrimeRec;
use part_rules::{Applied, Outcome};
use std::alloc::Global;

impl PartState {
    ghost use Rattle.std.specs.Prelude.{◌≡◌, ◌<◌, Bool, true, false, IfOk, OnOk};
    ghost use Rattle.std.specs.FinMap.{insert};
    ghost use Rattle.part_keys.specs.Routing.{remote_of};
    ghost use Rattle.part_rules.specs.Machine.{taken_of, leaves_all, primed, primed_by, keeping};
    ghost use Rattle.part_rules.specs.declared.kept.Outcome.TheVariants as kept;
    ghost use Rattle.part_rules.specs.Part.{chain_on_any};
    ghost use Rattle.graph_model.specs.Edges.{edges_in};
    ghost use Rattle.part_fold.specs.State.{part_of};

    // A Prime: a call that was seen is answered again, an edge with a chain is a conflict, edges that are all here are skipped, and
    // else a chain begins. Refused for want of memory alone.
    pub(crate) fn prime(
        &mut self,
        alloc: Global,
        parts: u32,
        index: u64,
        id: CallId,
        list: &EdgeHalves,
        absent: bool,
    ) -> Result<Applied, NoMemory>
        requires { 0 < parts }
        ensures { IfOk result (λ said. primed parts (part_of self.old) index id list.now absent ≡ (part_of self.new, said)) }
    {
        if let Some(last) = self.clients.get(id.client as u64) {
            if id.number < last.number {
                return Ok(Applied::Old);
            }
            if id.number == last.number {
                return Ok(Applied::Again(last.outcome));
            }
        }
        self.prime_new(alloc, parts, index, id, list, absent)
    }

    // A Prime of a call that is new to the part.
    fn prime_new(
        &mut self,
        alloc: Global,
        parts: u32,
        index: u64,
        id: CallId,
        list: &EdgeHalves,
        absent: bool,
    ) -> Result<Applied, NoMemory>
        requires { 0 < parts }
        ensures { IfOk result (λ said. primed_by parts (part_of self.old) index id list.now absent (chain_on_any (part_of self.old) (edges_in list.now)) ≡ (part_of self.new, said)) }
    {
        if let Some(other) = self.call_on_any(list.as_slice()) {
            self.keep(id, Outcome::Conflict(other))?;
            return Ok(Applied::Conflict(other));
        }
        if absent {
            if self.has_all(list.as_slice()) {
                self.keep(id, Outcome::Skipped)?;
                return Ok(Applied::Skipped);
            }
        }
        let taken = self.taken_of(alloc, list, absent)?;
        self.begin(parts, index, id, taken)?;
        Ok(Applied::Begun(index))
    }

    // The edges that a Prime takes: with the flag those whose out-half isn't here.
    fn taken_of(
        &self,
        alloc: Global,
        list: &EdgeHalves,
        absent: bool,
    ) -> Result<EdgeHalves, NoMemory>
        requires { leaves_all (part_of self.now) list.now absent ≡ false }
        ensures { IfOk result (λ taken. taken ≡ taken_of (part_of self.now) list.now absent) }
    {
        if !absent {
            let taken = list.copy(alloc)?;
            return Ok(taken);
        }
        let taken = self.missing(alloc, list.as_slice())?;
        Ok(EdgeHalves::new(taken))
    }

    // A chain begins with these edges.
    fn begin(
        &mut self,
        parts: u32,
        index: u64,
        id: CallId,
        list: EdgeHalves,
    ) -> Result<(), NoMemory>
        requires { 0 < parts }
        ensures { OnOk result (part_of self.new ≡ record (keeping (part_of self.old) id kept.Open) { chains = insert self.old.chains index (record { v = index; id = id; remote = remote_of parts list; list = list; double = false }) }) }
    {
        self.keep(id, Outcome::Open)?;
        let remote = remote_of(parts, list.as_slice());
        let chain = PrimeRec {
            v: index,
            id,
            remote,
            list,
            double: false,
        };
        self.chains.put(index, chain)?;
        Ok(())
    }
}
