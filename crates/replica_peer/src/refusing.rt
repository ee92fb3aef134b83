//! A step that the Raft peer refuses, made ahead.
ghost use Rattle.std.specs.Prelude.{◌≡◌};

use crate::next::{Next, Reads, Steps};
use crate::peer::Peer;
use crate::room::Room;
use kv_part::KeyStore;
use lists::{Listed, NoMemory};
use replica_state::Rule;
use std::alloc::Global;
use std::collections::VecDeque;

impl<S: KeyStore> Peer<S> {
    ghost use Rattle.std.specs.Prelude.{◌≡◌, false, Option, IfOk};
    ghost use Rattle.raft_core.specs.Core.{is_leading};
    ghost use Rattle.raft_core.specs.Laws.{nothing};
    ghost use Rattle.replica_model.specs.Stepped.{Viewed, raft_step};
    ghost use Rattle.replica_model.specs.declared.input.Input.{Input as Came};
    ghost use Rattle.replica_model.specs.declared.packet.Place.{Place as Sender};
    ghost use Rattle.replica_state.specs.Asked.{ruled};
    ghost use Rattle.replica_state.specs.declared.asked.Rule.{Rule as Rules};
    ghost use Rattle.replica_peer.specs.Peer.{home_of, replica_of, IsReplica};
    ghost use Rattle.replica_peer.specs.Room.{IsRoomOf, IsSame};

    /// A step that the Raft peer refuses, since it doesn't lead: what a leader kept goes. Refused for want of memory alone.
    pub(crate) fn plan_refused(&mut self, alloc: Global) -> Result<Room, NoMemory>
        requires sound { IsReplica S.meaning S.has_place self.old }
        requires follows { is_leading (replica_of self.old).core.role ≡ false }
        ensures room { (input : Came) (rule : Rules) (sender : Option Sender) (viewed : Option Viewed) → IfOk result (λ room. IsRoomOf S.meaning S.has_place self.new (raft_step (home_of self.old) (replica_of self.old) input (nothing (replica_of self.old).core) (ruled rule (replica_of self.old).lead) sender viewed) room) }
        ensures same { IsSame S.meaning S.has_place self.old self.new }
    {
        let placed = Listed::new(alloc);
        self.machine.reserve(alloc, &placed)?;
        let steps = Steps {
            core: None,
            on: false,
            rule: Rule::Stays,
            policy: self.state.leader.policy,
            ready: false,
            sender: None,
            reads: Reads::Dropped,
            confirmed: 0,
            placed,
            begins: VecDeque::new(alloc),
            told: Vec::new(alloc),
        };
        Ok(Room::of(Listed::new(alloc), Next::Steps(steps)))
    }
}
