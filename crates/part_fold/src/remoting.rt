//! What a Remote and a Fence do.
ghost use Rattle.std.specs.Prelude.{◌≡◌, OnOk};
ghost use Rattle.maps.specs.Lists.{put_all};
ghost use Rattle.part_rules.specs.Machine.{in_halves};

use crate::in_halves::InHalves;
use crate::state::PartState;
use graph_model::{EdgeHalves, EdgeId, Edges, Half};
use lists::NoMemory;
use part_keys::InHalf;
use part_rules::Applied;
use std::alloc::Global;

// Each edge has its half as its in-half, by chain `v`, the last one written first.
fn write_in(
    alloc: Global,
    inn: &mut InHalves,
    v: u64,
    list: &[(EdgeId, Half)],
) -> Result<(), NoMemory>
    ensures { OnOk result (inn.new ≡ put_all inn.old (in_halves v list.now)) }
{
    let mut left = list.len();
    'halves: while left > 0 {
        left -= 1;
        let pair = &list[left];
        let half = pair.1.copy(alloc)?;
        inn.put(pair.0, InHalf { v, half })?;
    }
    Ok(())
}

impl PartState {
    ghost use Rattle.std.specs.Prelude.{◌≡◌, IfOk};
    ghost use Rattle.part_rules.specs.Machine.{remoted, fenced};
    ghost use Rattle.part_fold.specs.State.{part_of};

    // A Remote: where a leader of a greater term was here it is stale; else the guard is raised, and each in-half whose number is
    // lower is written.
    pub(crate) fn remote(
        &mut self,
        alloc: Global,
        source: u32,
        term: u64,
        v: u64,
        list: &EdgeHalves,
    ) -> Result<Applied, NoMemory>
        ensures { IfOk result (λ said. remoted (part_of self.old) source term v list.now ≡ (part_of self.new, said)) }
    {
        let guard = self.guard(source);
        if term < guard {
            return Ok(Applied::Stale(guard));
        }
        let fresh = self.fresh_of(alloc, v, list.as_slice())?;
        write_in(alloc, &mut self.inn, v, fresh.as_slice())?;
        self.guards.put(source as u64, term)?;
        Ok(Applied::Done)
    }

    // A Fence: where a leader of a greater term was here it is stale; else the guard is raised, and the answer tells whether the
    // chain, or a later one, wrote the in-half of each of the edges.
    pub(crate) fn fence(
        &mut self,
        source: u32,
        term: u64,
        v: u64,
        edges: &Edges,
    ) -> Result<Applied, NoMemory>
        ensures { IfOk result (λ said. fenced (part_of self.old) source term v edges.now ≡ (part_of self.new, said)) }
    {
        let guard = self.guard(source);
        if term < guard {
            return Ok(Applied::Stale(guard));
        }
        let written = self.all_written(v, edges.as_slice());
        self.guards.put(source as u64, term)?;
        Ok(Applied::Fenced(written))
    }
}
