//! A step made ahead, by what its input asks.
ghost use Rattle.std.specs.Prelude.{◌≡◌};

use crate::peer::Peer;
use crate::raft_ahead::Asking;
use crate::room::Room;
use kv_part::KeyStore;
use lists::NoMemory;
use replica_state::{Asked, Told};
use std::alloc::Global;

impl<S: KeyStore> Peer<S> {
    ghost use Rattle.std.specs.Prelude.{◌≡◌, true, IfOk};
    ghost use Rattle.replica_model.specs.Asks as model;
    ghost use Rattle.replica_model.specs.Stepped.{does};
    ghost use Rattle.replica_model.specs.declared.input.Input.{Input as Came};
    ghost use Rattle.replica_state.specs.Asked.{asked_of, IsSound};
    ghost use Rattle.replica_peer.specs.Peer.{home_of, replica_of, IsReplica};
    ghost use Rattle.replica_peer.specs.Room.{IsRoomOf, IsSame};
    ghost use Rattle.replica_peer.specs.Stages.{IsTold};

    /// The step of a peer, by what its input asks. Refused for want of memory alone.
    pub(crate) fn plan_asked(
        &mut self,
        alloc: Global,
        told: Told,
        asked: Asked,
    ) -> Result<Room, NoMemory>
        requires sound { IsReplica S.meaning S.has_place self.old }
        requires asked { IsSound self.old.state.whose asked }
        requires own { (input : Came) × (model.are_entries (home_of self.old) (does (home_of self.old) (replica_of self.old) input (asked_of (home_of self.old) (replica_of self.old) asked)).replica.core.log ≡ true) }
        ensures room { (input : Came) → IsTold input told → IfOk result (λ room. IsRoomOf S.meaning S.has_place self.new (does (home_of self.old) (replica_of self.old) input (asked_of (home_of self.old) (replica_of self.old) asked)) room) }
        ensures same { IsSame S.meaning S.has_place self.old self.new }
    {
        match asked {
            Asked::Nothing => Ok(self.plan_nothing(alloc)),
            Asked::Quiet => Ok(self.plan_nothing(alloc)),
            Asked::Refuses(from, other) => self.plan_refusal(alloc, from, other),
            Asked::Points(v, peer) => self.plan_point(alloc, v, peer),
            Asked::Resumes(after) => self.plan_resumes(alloc, after),
            Asked::Raft(input, rule, sender) => {
                let asking = Asking {
                    told,
                    rule,
                    sender,
                    viewed: None,
                };
                self.plan_raft(alloc, asking, input)
            }
            Asked::Reads(id, query) => self.plan_reads(alloc, told, id, query),
        }
    }
}
