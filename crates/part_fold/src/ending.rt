//! What a Local, a Double, a Close and an Abort do.
ghost use Rattle.std.specs.Prelude.{◌≡◌, OnOk};
ghost use Rattle.maps.specs.Maps.{with_at};
ghost use Rattle.graph_model.specs.Contents.{row_of};
ghost use Rattle.part_rules.specs.Machine.{out_written};

use crate::out_halves::OutHalves;
use crate::state::PartState;
use graph_model::{EdgeId, Half};
use lists::NoMemory;
use part_keys::PrimeRec;
use part_rules::{Applied, Outcome};
use std::alloc::Global;

// The edge has this half as its out-half.
fn write_one(alloc: Global, out: &mut OutHalves, edge: &EdgeId, half: &Half) -> Result<(), NoMemory>
    ensures { OnOk result (out.new ≡ with_at out.old edge.now (row_of half.now)) }
{
    match half {
        Half::Absent => {
            out.remove(edge);
            Ok(())
        }
        Half::Here(row) => {
            let row = row.copy(alloc)?;
            out.put(*edge, row)
        }
    }
}

// Each edge has its half as its out-half, the last one written first.
fn write_out(alloc: Global, out: &mut OutHalves, list: &[(EdgeId, Half)]) -> Result<(), NoMemory>
    ensures { OnOk result (out.new ≡ out_written out.old list.now) }
{
    let mut left = list.len();
    'halves: while left > 0 {
        left -= 1;
        let half = &list[left];
        write_one(alloc, out, &half.0, &half.1)?;
    }
    Ok(())
}

impl PartState {
    ghost use Rattle.std.specs.Prelude.{◌≡◌, IfOk};
    ghost use Rattle.std.specs.FinMap.{get};
    ghost use Rattle.part_rules.specs.Machine.{localized, doubled, closed, aborted};
    ghost use Rattle.part_fold.specs.State.{part_of};

    // A Local: a chain that isn't double writes its out-halves and ends, and its call is Fine.
    pub(crate) fn local(&mut self, alloc: Global, v: u64) -> Result<Applied, NoMemory>
        ensures { IfOk result (λ said. localized (part_of self.old) v ≡ (part_of self.new, said)) }
    {
        let Some(chain) = self.chains.get(v) else {
            return Ok(Applied::Nothing);
        };
        if chain.double {
            return Ok(Applied::Nothing);
        }
        let id = chain.id;
        write_out(alloc, &mut self.out, chain.list.as_slice())?;
        self.chains.remove(v);
        self.come_to(id, Outcome::Fine)?;
        Ok(Applied::Settled(id))
    }

    // A Double: a chain that isn't double writes its out-halves and becomes double, and its call is Pending.
    pub(crate) fn double(&mut self, alloc: Global, v: u64) -> Result<Applied, NoMemory>
        ensures { IfOk result (λ said. doubled (part_of self.old) v ≡ (part_of self.new, said)) }
    {
        let Some(chain) = self.chains.get(v) else {
            return Ok(Applied::Nothing);
        };
        if chain.double {
            return Ok(Applied::Nothing);
        }
        let id = chain.id;
        let shown = PrimeRec {
            v: chain.v,
            id: chain.id,
            remote: chain.remote,
            list: chain.list.copy(alloc)?,
            double: true,
        };
        write_out(alloc, &mut self.out, chain.list.as_slice())?;
        self.chains.put(v, shown)?;
        self.come_to(id, Outcome::Pending)?;
        Ok(Applied::Doubled(id))
    }

    // A Close: a double chain ends, and its call is Fine.
    pub(crate) fn close(&mut self, v: u64) -> Result<Applied, NoMemory>
        ensures { IfOk result (λ said. closed (part_of self.old) v ≡ (part_of self.new, said)) }
    {
        let Some(chain) = self.chains.get(v) else {
            return Ok(Applied::Nothing);
        };
        if !chain.double {
            return Ok(Applied::Nothing);
        }
        let id = chain.id;
        self.chains.remove(v);
        self.come_to(id, Outcome::Fine)?;
        Ok(Applied::Closed(id))
    }

    // An Abort: a chain that isn't double ends, and its call is Cancelled.
    pub(crate) fn abort(&mut self, v: u64) -> Result<Applied, NoMemory>
        ensures { IfOk result (λ said. aborted (part_of self.old) v ≡ (part_of self.new, said)) }
    {
        let Some(chain) = self.chains.get(v) else {
            return Ok(Applied::Nothing);
        };
        if chain.double {
            return Ok(Applied::Nothing);
        }
        let id = chain.id;
        self.chains.remove(v);
        self.come_to(id, Outcome::Cancelled)?;
        Ok(Applied::Aborted(id))
    }
}
