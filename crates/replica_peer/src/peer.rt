//! One replica without its disk.
use crate::applying::apply_all;
use crate::hints::{use_up, use_up_gone};
use crate::next::{Next, Steps};
use crate::room::Room;
use crate::taking::{hints_on, lead_on, move_on, reads_on, senders_on};
use kv_part::KeyStore;
use lists::NoMemory;
use part_machine::Machine;
use part_store::Setting;
use raft_core::PeerView;
use raft_log::RaftLog;
use replica_model::{Input, hints_go, one_record};
use replica_record::own_records;
use replica_state::{Leaves, ReplicaState, Whose, fill, told_in};
use std::alloc::Global;

/// One replica of a part, without its disk: what it is beside its machine, and the machine of its part.
#[derive(Drop)]
pub struct Peer<S> {
    pub(crate) state: ReplicaState,
    pub(crate) machine: Machine<S>,
}

impl<S: KeyStore> Peer<S> {
    ghost use Rattle.std.specs.Prelude.{◌≡◌, ℕ, List, [], true, if◌then◌else◌, IfOk};
    ghost use Rattle.part_keys.specs.declared.entry.PartEntry.{PartEntry as Entry};
    ghost use Rattle.part_machine.specs.Machine.{IsMachine};
    ghost use Rattle.part_machine.specs.Playing as plays;
    ghost use Rattle.replica_model.specs.Laws.{HintsStand};
    ghost use Rattle.std.specs.FinMap as map;
    ghost use Rattle.part_store.specs.Settings.{IsSetting};
    ghost use Rattle.raft_core.specs.Core.{is_leading};
    ghost use Rattle.raft_core.specs.Members.{matched_in};
    ghost use Rattle.raft_core.specs.Peer.{view_of};
    ghost use Rattle.replica_model.specs.Asks.{are_entries};
    ghost use Rattle.replica_model.specs.Replica.{opened, machine_of};
    ghost use Rattle.replica_model.specs.declared.input.Input.{Input as Came};
    ghost use Rattle.replica_state.specs.State.{IsHeard};
    ghost use Rattle.replica_peer.specs.Next.{goes_to, steps_to, FitsNext, FitsSteps, ShowsNext};
    ghost use Rattle.replica_peer.specs.Peer.{home_in, home_of, replica_of, setting_of, IsReplica};
    ghost use Rattle.replica_peer.specs.Room.{step_of, IsRoomFor};

    /// A replica of this part that comes up with what is durable: a follower with commit 0, over an empty store. Each payload of
    /// the log is an entry of the part. It takes no memory until it steps.
    pub fn open(
        alloc: Global,
        setting: Setting,
        me: u32,
        term: u64,
        vote: u32,
        log: RaftLog,
        store: S,
    ) -> Peer<S>
        requires setting { IsSetting setting }
        requires empty { S.meaning store ≡ map.empty }
        requires entries { are_entries (home_in setting) log.0 ≡ true }
        ensures home { home_of result ≡ home_in setting }
        ensures opened { replica_of result ≡ opened me (record { term = term; vote = vote; log = log.0 }) }
        ensures sound { IsReplica S.meaning S.has_place result }
    {
        let Setting { ids, parts, part } = setting;
        Peer {
            state: ReplicaState::open(alloc, Whose { part, parts, ids }, me, term, vote, log),
            machine: Machine::new(alloc, part, parts, ids, store),
        }
    }

    /// A step made ahead: all that it needs memory for. Nothing that is seen changes; refused for want of memory alone.
    pub fn plan(&mut self, alloc: Global, input: Input) -> Result<Room, NoMemory>
        requires sound { IsReplica S.meaning S.has_place self.old }
        requires heard { IsHeard input }
        ensures room { IfOk result (λ room. IsRoomFor S.meaning S.has_place self.new input room) }
        ensures same { replica_of self.new ≡ replica_of self.old }
        ensures home { home_of self.new ≡ home_of self.old }
        ensures sound { IsReplica S.meaning S.has_place self.new }
    {
        one_record();
        own_records();
        let told = told_in(&input);
        let _log = self.state.core.log();
        let asked = self.state.asks(alloc, input)?;
        self.plan_asked(alloc, told, asked)
    }

    /// The step that was made ahead is taken. No memory, no failure. Gives what leaves.
    pub fn take(&mut self, room: Room) -> Leaves
        requires room { (input : Came) × IsRoomFor S.meaning S.has_place self.old input room }
        requires sound { IsReplica S.meaning S.has_place self.old }
        ensures stepped { (input : Came) → IsRoomFor S.meaning S.has_place self.old input room → replica_of self.new ≡ (step_of self.old input).replica }
        ensures leaves { result ≡ room.leaves }
        ensures home { home_of self.new ≡ home_of self.old }
        ensures sound { IsReplica S.meaning S.has_place self.new }
    {
        let Room {
            kept: _,
            leaves,
            change: _,
            next,
        } = room;
        hints_go();
        self.go_to(next);
        leaves
    }

    // What becomes of the peer.
    fn go_to(&mut self, next: Next)
        requires setting { self.old.machine.setting ≡ setting_of self.old.state.whose }
        requires hints { HintsStand (replica_of self.old) }
        requires fits { FitsNext S.meaning S.has_place self.old next }
        ensures replica { replica_of self.new ≡ goes_to (home_of self.old) (replica_of self.old) next }
        ensures home { home_of self.new ≡ home_of self.old }
        ensures setting { self.new.machine.setting ≡ self.old.machine.setting }
        ensures shows { (reserved : List (ℕ × Entry)) → IsMachine S.meaning S.has_place (machine_of (home_of self.old) (replica_of self.old)) reserved self.old.machine → ShowsNext S.meaning S.has_place self.old next reserved self.new.machine }
    {
        match next {
            Next::Stays => {}
            Next::Points(v, peer) => fill(&mut self.state.hints, v, Some(peer)),
            Next::Resumes(made, told) => {
                let _sent = self.state.leader.takes_up(made);
                use_up(&mut self.state.hints, told.as_slice());
            }
            Next::Steps(steps) => self.step_on(steps),
        }
    }

    // A step of the Raft peer.
    fn step_on(&mut self, steps: Steps)
        requires setting { self.old.machine.setting ≡ setting_of self.old.state.whose }
        requires hints { HintsStand (replica_of self.old) }
        requires fits { FitsSteps S.meaning S.has_place self.old steps }
        ensures replica { replica_of self.new ≡ steps_to (home_of self.old) (replica_of self.old) steps }
        ensures home { home_of self.new ≡ home_of self.old }
        ensures setting { self.new.machine.setting ≡ self.old.machine.setting }
        ensures shows { IsMachine S.meaning S.has_place (plays.behind self.old.machine.setting (machine_of (home_of self.old) (replica_of self.old)) steps.placed) [] self.new.machine }
        ensures next { self.new.machine.next ≡ plays.next_by self.old.machine.next steps.placed }
    {
        let Steps {
            core,
            on,
            rule,
            policy,
            ready,
            sender,
            reads,
            confirmed,
            placed,
            begins,
            told,
        } = steps;
        let entries = placed.as_slice();
        move_on(&mut self.state.core, core);
        lead_on(&mut self.state.leader, on, rule, policy, ready);
        senders_on(&mut self.state.senders, on, sender);
        reads_on(&mut self.state.rows, reads, confirmed);
        apply_all(
            &mut self.machine,
            &mut self.state.leader.table,
            entries,
            begins,
        );
        hints_on(&mut self.state.hints, on);
        use_up(&mut self.state.hints, told.as_slice());
        use_up_gone(&mut self.state.hints, &self.state.leader.table, entries);
    }

    /// What is seen of the Raft peer.
    pub fn view(&self) -> PeerView
        ensures { result ≡ view_of (replica_of self.now).core }
    {
        self.state.view()
    }

    /// The match index of a member at the leader, else 0.
    pub fn matched(&self, peer: u32) -> u64
        ensures { result ≡ (if is_leading (replica_of self.now).core.role then matched_in (replica_of self.now).core.rows peer else 0) }
    {
        self.state.matched(peer)
    }
}
