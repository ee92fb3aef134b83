//! The peers of a group, by their ids.
ghost use Rattle.std.specs.Prelude.{◌≡◌};

use lists::NoMemory;
use raft_core::RaftCore;
use std::alloc::Global;
use std::collections::BTreeMap;
use std::marker::Model;

/// A peer that was placed: whether it is a member still, and its state.
#[derive(Drop)]
pub struct PlacedPeer {
    pub is_member: bool,
    pub core: RaftCore,
}

/// The peers that were ever placed, by their ids; contracts see them as a finite map.
#[derive(Drop)]
pub struct PlacedPeers {
    kept: BTreeMap<u32, PlacedPeer>,
}

impl Model for PlacedPeers {
    ghost use Rattle.std.specs.Coded.{coded_ℕ};
    ghost use Rattle.std.specs.FinMap as map;
    ghost use Rattle.std.specs.Ordering.{nat_cmp};
    ghost use Rattle.raft_group.specs.declared.placed.PlacedPeer.{PlacedPeer};
    ghost use Rattle.raft_group.specs.contracts.placed.PlacedPeer as peer;

    ghost Value = { map.FinMap nat_cmp PlacedPeer };

    ghost coded = { map.code coded_ℕ peer.the_row.coded };

    ghost view = { λ a. map.from_entries a.kept.entries };
}

impl PlacedPeers {
    ghost use Rattle.std.specs.FinMap as map;
    ghost use Rattle.std.specs.Option.{option_copied, is_some};
    ghost use Rattle.std.specs.Prelude.{OnOk};
    ghost use Rattle.raft_group.specs.Held.{is_member_at};

    /// Nobody. It takes no memory until it grows.
    pub fn new(alloc: Global) -> PlacedPeers
        ensures { result ≡ map.empty }
    {
        PlacedPeers {
            kept: BTreeMap::new(alloc),
        }
    }

    /// The peer of an id.
    pub fn get(&self, id: u32) -> Option<&PlacedPeer>
        ensures { option_copied result ≡ map.get self.now id }
    {
        self.kept.get(&id)
    }

    /// Whether a peer of that id was ever placed.
    pub fn has(&self, id: u32) -> bool
        ensures { result ≡ is_some (map.get self.now id) }
    {
        self.kept.contains_key(&id)
    }

    /// Whether the peer of that id is a member.
    pub fn has_member(&self, id: u32) -> bool
        ensures { result ≡ is_member_at (map.get self.now id) }
    {
        match self.get(id) {
            Some(peer) => peer.is_member,
            None => false,
        }
    }

    /// Puts a peer under its id, in the place of the one before. Refused for want of memory alone.
    pub fn put(&mut self, id: u32, peer: PlacedPeer) -> Result<(), NoMemory>
        ensures { OnOk result (self.new ≡ map.insert self.old id peer) }
    {
        self.kept.insert(id, peer)?;
        Ok(())
    }

    /// Takes a peer out.
    pub fn remove(&mut self, id: u32) -> Option<PlacedPeer>
        ensures peer { result ≡ map.get self.old id }
        ensures others { self.new ≡ map.remove self.old id }
    {
        self.kept.remove(&id)
    }
}
