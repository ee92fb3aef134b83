//! The machine of one part.
use crate::applied::Applied;
use crate::clients::{Clients, Kept, Outcome};
use crate::edge_map::EdgeMap;
use crate::entry::PartEntry;
use crate::in_halves::{InHalf, InHalves};
use crate::prime::PrimeRec;
use first_graph::{CallId, EdgeId, Half, Query, Row, View};
use lists::NoMemory;
use std::alloc::Global;
use std::marker::Model;

/// The machine of one part: its state after the entries that were applied so far.
#[derive(Drop)]
pub struct Machine {
    out: EdgeMap<Row>,
    inn: InHalves,
    primes: EdgeMap<PrimeRec>,
    clients: Clients,
}

impl Model for Machine {
    ghost use Rattle.first_part.specs.Part.{Part};
    ghost use Rattle.first_part.specs.PartCode.{part_code};
    ghost use Rattle.std.specs.FinMap as map;
    ghost use Rattle.std.specs.Coded.{coded_list};
    ghost use Rattle.first_graph.specs.contracts.edge_id.EdgeId as edge;
    ghost use Rattle.first_graph.specs.contracts.val.Val as val;
    ghost use Rattle.first_part.specs.contracts.in_halves.InHalves as in_rows;
    ghost use Rattle.first_part.specs.contracts.prime.PrimeRec as prime;
    ghost use Rattle.first_part.specs.contracts.clients.Clients as client_rows;

    ghost Value = { Part };

    ghost coded = { part_code (map.code edge.the_row.coded (coded_list val.the_row.coded)) in_rows.the_row.coded (map.code edge.the_row.coded prime.the_row.coded) client_rows.the_row.coded };

    ghost view = { λ a. record { out = a.out; inn = a.inn; primes = a.primes; kept = a.clients } };
}

impl Machine {
    ghost use Rattle.std.specs.Prelude.{◌≡◌, IfOk, OnErr};
    ghost use Rattle.std.specs.FinMap.{get};
    ghost use Rattle.first_part.specs.Part.{start, applied, seen, primed, localized, keeping, where_new};

    /// A part to which nothing was applied; without memory.
    pub fn new(alloc: Global) -> Machine
        ensures { result ≡ start }
    {
        Machine {
            out: EdgeMap::new(alloc),
            inn: InHalves::new(alloc),
            primes: EdgeMap::new(alloc),
            clients: Clients::new(alloc),
        }
    }

    /// Applies the entry at this index of the part's log. A Double, a Close, an Abort, a Fence and a Vertex, which no
    /// replica of this stage makes, change nothing. Refused for want of memory alone, and then the part is as it was.
    pub fn apply(
        &mut self,
        alloc: Global,
        index: u64,
        entry: &PartEntry,
    ) -> Result<Applied, NoMemory>
        ensures ok { IfOk result (λ answer. applied self.old index entry.now ≡ (self.new, answer)) }
        ensures err { OnErr result (self.new ≡ self.old) }
    {
        match entry {
            PartEntry::Prime(id, edge, half, absent) => {
                self.prime(alloc, index, *id, *edge, half, *absent)
            }
            PartEntry::Local(edge, v) => self.local(alloc, *edge, *v),
            PartEntry::Remote(_from, _term, edge, v, half) => self.remote(alloc, *edge, *v, half),
            PartEntry::Read(id, query) => Ok(Applied::Shown(*id, self.view(alloc, query)?)),
            _ => Ok(Applied::Nothing),
        }
    }

    /// What a query finds in this part. Refused for want of memory alone.
    pub fn view(&self, alloc: Global, query: &Query) -> Result<View, NoMemory>
        ensures { IfOk result (λ view. view ≡ seen query.now self.now) }
    {
        let mut view = View::new(alloc);
        match query {
            Query::Tag(_vid, _tag) => {}
            Query::Edge(edge) => self.out.push_edge(&mut view, alloc, *edge)?,
            Query::Out(vid, types) => self.out.push_of(&mut view, alloc, vid, types)?,
            Query::In(vid, types) => self.inn.push_of(&mut view, alloc, vid, types)?,
            Query::Both(vid, types) => {
                self.inn.push_of(&mut view, alloc, vid, types)?;
                self.out.push_of(&mut view, alloc, vid, types)?;
            }
        }
        Ok(view)
    }

    fn prime(
        &mut self,
        alloc: Global,
        index: u64,
        id: CallId,
        edge: EdgeId,
        half: &Half,
        absent: bool,
    ) -> Result<Applied, NoMemory>
        ensures ok { IfOk result (λ answer. where_new self.old id (get self.old.kept id.client) (primed self.old index id edge half.now absent (get self.old.primes edge)) ≡ (self.new, answer)) }
        ensures err { OnErr result (self.new ≡ self.old) }
    {
        if let Some(kept) = self.clients.get(id.client) {
            if id.number < kept.number {
                return Ok(Applied::Old);
            }
            if id.number == kept.number {
                return Ok(Applied::Again(kept.outcome));
            }
        }
        self.prime_new(alloc, index, id, edge, half, absent)
    }

    /// Applies the Prime of a call that is new to this part.
    fn prime_new(
        &mut self,
        alloc: Global,
        index: u64,
        id: CallId,
        edge: EdgeId,
        half: &Half,
        absent: bool,
    ) -> Result<Applied, NoMemory>
        ensures ok { IfOk result (λ answer. primed self.old index id edge half.now absent (get self.old.primes edge) ≡ (self.new, answer)) }
        ensures err { OnErr result (self.new ≡ self.old) }
    {
        if let Some(prime) = self.primes.get(edge) {
            let holder = prime.id;
            self.keep(id, Outcome::Conflict(holder))?;
            return Ok(Applied::Conflict(holder));
        }
        if absent && self.out.contains(edge) {
            self.keep(id, Outcome::Skipped)?;
            return Ok(Applied::Skipped);
        }
        let prime = PrimeRec {
            edge,
            v: index,
            id,
            fresh_half: half.copy(alloc)?,
            double: false,
        };
        let kept = Kept {
            number: id.number,
            outcome: Outcome::Open,
        };
        self.primes.insert(edge, prime)?;
        if let Err(refused) = self.clients.keep(id.client, kept) {
            self.primes.remove(edge);
            return Err(refused);
        }
        Ok(Applied::Begun(index))
    }

    fn keep(&mut self, id: CallId, outcome: Outcome) -> Result<(), NoMemory>
        ensures ok { IfOk result (λ _. self.new ≡ keeping self.old id outcome) }
        ensures err { OnErr result (self.new ≡ self.old) }
    {
        let kept = Kept {
            number: id.number,
            outcome,
        };
        self.clients.keep(id.client, kept)
    }

    fn local(&mut self, alloc: Global, edge: EdgeId, v: u64) -> Result<Applied, NoMemory>
        ensures ok { IfOk result (λ answer. localized self.old edge v (get self.old.primes edge) ≡ (self.new, answer)) }
        ensures err { OnErr result (self.new ≡ self.old) }
    {
        let Some(prime) = self.primes.get(edge) else {
            return Ok(Applied::Nothing);
        };
        if prime.v != v || prime.double {
            return Ok(Applied::Nothing);
        }
        let id = prime.id;
        match &prime.fresh_half {
            Half::Absent => self.out.remove(edge),
            Half::Here(row) => self.out.insert(edge, row.copy(alloc)?)?,
        }
        self.primes.remove(edge);
        self.clients.settle(id);
        Ok(Applied::Settled(id))
    }

    fn remote(
        &mut self,
        alloc: Global,
        edge: EdgeId,
        v: u64,
        half: &Half,
    ) -> Result<Applied, NoMemory>
        ensures ok { IfOk result (λ answer. applied self.old 0 (PartEntry.Remote 0 0 edge v half.now) ≡ (self.new, answer)) }
        ensures err { OnErr result (self.new ≡ self.old) }
    {
        if self.inn.number(edge) < v {
            let half = half.copy(alloc)?;
            self.inn.write(edge, InHalf { v, half })?;
        }
        Ok(Applied::Done)
    }
}
