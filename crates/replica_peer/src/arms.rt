//! Steps that leave the Raft peer as it is, made ahead.
ghost use Rattle.std.specs.Prelude.{◌≡◌};

use crate::next::Next;
use crate::peer::Peer;
use crate::room::Room;
use crate::stages::chains_told;
use chain_leader::{About, TakenUp};
use kv_part::KeyStore;
use lists::{Listed, NoMemory};
use part_rules::named_by_prime;
use replica_model::Place;
use replica_state::{hold, post_all};
use std::alloc::Global;

impl<S: KeyStore> Peer<S> {
    ghost use Rattle.std.specs.Prelude.{◌≡◌, ◌≤◌, length, Option, IfOk};
    ghost use Rattle.chain_leader.specs.Leading.{still, resuming, standing_behind};
    ghost use Rattle.chain_leader.specs.Resuming.{all_taken_up};
    ghost use Rattle.replica_model.specs.Asks as model;
    ghost use Rattle.replica_model.specs.Replica.{machine_of};
    ghost use Rattle.replica_model.specs.Stepped.{does};
    ghost use Rattle.replica_model.specs.declared.input.Input.{Input as Came};
    ghost use Rattle.replica_peer.specs.Peer.{home_of, replica_of, IsReplica};
    ghost use Rattle.replica_peer.specs.Room.{IsRoomOf, IsSame};

    /// Nothing changes, and nothing leaves: also where a leader takes no rule, since no hint stands that it would use up.
    pub(crate) fn plan_nothing(&self, alloc: Global) -> Room
        requires sound { IsReplica S.meaning S.has_place self.now }
        ensures nothing { (input : Came) → IsRoomOf S.meaning S.has_place self.now (does (home_of self.now) (replica_of self.now) input model.Nothing) result }
        ensures quiet { (input : Came) → IsRoomOf S.meaning S.has_place self.now (does (home_of self.now) (replica_of self.now) input (model.Leads (still (replica_of self.now).lead))) result }
    {
        Room::of(Listed::new(alloc), Next::Stays)
    }

    /// The sender is told who may lead. Refused for want of memory alone.
    pub(crate) fn plan_refusal(
        &self,
        alloc: Global,
        from: Place,
        other: About,
    ) -> Result<Room, NoMemory>
        requires sound { IsReplica S.meaning S.has_place self.now }
        ensures { (input : Came) → IfOk result (λ room. IsRoomOf S.meaning S.has_place self.now (does (home_of self.now) (replica_of self.now) input (model.Refuses from other)) room) }
    {
        let mut leaves = Listed::new(alloc);
        leaves.push(self.state.refusal(from, other))?;
        Ok(Room::of(leaves, Next::Stays))
    }

    /// The hint of a chain is this peer. Refused for want of memory alone.
    pub(crate) fn plan_point(&mut self, alloc: Global, v: u64, peer: u32) -> Result<Room, NoMemory>
        requires sound { IsReplica S.meaning S.has_place self.old }
        ensures room { (input : Came) → IfOk result (λ room. IsRoomOf S.meaning S.has_place self.new (does (home_of self.old) (replica_of self.old) input (model.Points v peer)) room) }
        ensures same { IsSame S.meaning S.has_place self.old self.new }
    {
        hold(&mut self.state.hints, v)?;
        Ok(Room::of(Listed::new(alloc), Next::Points(v, peer)))
    }

    // What a leader takes up of the chains that stand behind a number, or of all. Refused for want of memory alone.
    fn taken_up(&self, alloc: Global, after: Option<u64>) -> Result<TakenUp, NoMemory>
        requires sound { IsReplica S.meaning S.has_place self.now }
        ensures letters { IfOk result (λ made. made.letters ≡ (resuming (replica_of self.now).core.term (replica_of self.now).lead (standing_behind (machine_of (home_of self.now) (replica_of self.now)) after)).letters) }
        ensures table { IfOk result (λ made. all_taken_up made.rows.items (replica_of self.now).lead.table ≡ (resuming (replica_of self.now).core.term (replica_of self.now).lead (standing_behind (machine_of (home_of self.now) (replica_of self.now)) after)).leading.table) }
    {
        named_by_prime();
        let behind = after.unwrap_or(0);
        let standing = self.machine.primes(alloc, behind)?;
        let more = self.machine.more_primes(behind);
        let term = self.state.core.state().term;
        self.state
            .leader
            .prepared(alloc, term, standing.as_slice(), more)
    }

    /// The leader takes up chains. Refused for want of memory alone.
    pub(crate) fn plan_resumes(
        &mut self,
        alloc: Global,
        after: Option<u64>,
    ) -> Result<Room, NoMemory>
        requires sound { IsReplica S.meaning S.has_place self.old }
        ensures room { (input : Came) → IfOk result (λ room. IsRoomOf S.meaning S.has_place self.new (does (home_of self.old) (replica_of self.old) input (model.Leads (resuming (replica_of self.old).core.term (replica_of self.old).lead (standing_behind (machine_of (home_of self.old) (replica_of self.old)) after)))) room) }
        ensures same { IsSame S.meaning S.has_place self.old self.new }
    {
        let TakenUp { letters, rows } = self.taken_up(alloc, after)?;
        let told = chains_told(alloc, letters.as_slice())?;
        let mut leaves = Listed::new(alloc);
        post_all(
            self.state.writer(),
            &self.state.hints,
            None,
            letters.into_vec(),
            &mut leaves,
        )?;
        self.state.leader.table.reserve(rows.len())?;
        let made = TakenUp {
            letters: Listed::new(alloc),
            rows,
        };
        Ok(Room {
            kept: None,
            leaves,
            change: None,
            next: Next::Resumes(made, told),
        })
    }
}
