//! The leaders of the parts.
use chain_leader::Leader;
use chain_world::ChainEnd;
use lists::{Listed, NoMemory};
use part_fold::Numbered;
use part_keys::Proposal;
use std::alloc::Global;
use std::collections::BTreeMap;
use std::marker::Model;

/// Which leader it is: of a part, in a term.
#[derive(Clone, Copy, PartialEq, Eq, PartialOrd, Ord)]
pub struct Seat {
    pub part: u32,
    pub term: u64,
}

/// A leader: what its rules keep, how many decided entries it has applied, what it has proposed, in order, and the sender of each
/// Remote and Fence that it proposed, by the number of the proposal.
#[derive(Drop)]
pub struct Seated {
    pub lead: Leader,
    pub applied: u64,
    pub made: Listed<Proposal>,
    pub senders: Numbered<ChainEnd>,
}

/// The leaders that there are; contracts see a finite map.
#[derive(Drop)]
pub struct Leaders {
    kept: BTreeMap<Seat, Seated>,
}

impl Model for Leaders {
    ghost use Rattle.std.specs.FinMap as map;
    ghost use Rattle.chain_run.specs.Seats.{seat_cmp};
    ghost use Rattle.chain_run.specs.contracts.leaders.Seat as key;
    ghost use Rattle.chain_run.specs.declared.leaders.Seated.{Seated};
    ghost use Rattle.chain_run.specs.contracts.leaders.Seated as value;

    ghost Value = { map.FinMap seat_cmp Seated };

    ghost coded = { map.code key.the_row.coded value.the_row.coded };

    ghost view = { λ a. map.from_entries a.kept.entries };
}

impl Leaders {
    ghost use Rattle.std.specs.FinMap as map;
    ghost use Rattle.std.specs.Option.{option_copied, is_some};
    ghost use Rattle.std.specs.Prelude.{◌≡◌, OnOk};

    /// There is none.
    pub fn new(alloc: Global) -> Leaders
        ensures { result ≡ map.empty }
    {
        Leaders {
            kept: BTreeMap::new(alloc),
        }
    }

    /// The leader of a part and term.
    pub fn get(&self, seat: Seat) -> Option<&Seated>
        ensures { option_copied result ≡ map.get self.now seat }
    {
        self.kept.get(&seat)
    }

    /// Whether there is a leader of the part and term.
    pub fn has(&self, seat: Seat) -> bool
        ensures { result ≡ is_some (map.get self.now seat) }
    {
        self.kept.contains_key(&seat)
    }

    /// Puts a leader, in the place of the one before. Refused for want of memory alone.
    pub fn put(&mut self, seat: Seat, leader: Seated) -> Result<(), NoMemory>
        ensures { OnOk result (self.new ≡ map.insert self.old seat leader) }
    {
        self.kept.insert(seat, leader)?;
        Ok(())
    }

    /// Takes a leader out.
    pub fn remove(&mut self, seat: Seat) -> Option<Seated>
        ensures leader { result ≡ map.get self.old seat }
        ensures others { self.new ≡ map.remove self.old seat }
    {
        self.kept.remove(&seat)
    }
}
