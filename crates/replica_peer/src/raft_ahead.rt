//! A step of the Raft peer, made ahead.
ghost use Rattle.std.specs.Prelude.{◌≡◌, ◌≤◌, ◌<◌, OnOk, vec_len, vec_capacity};
ghost use Rattle.replica_state.specs.State.{replica_of as kept_of};
ghost use Rattle.replica_peer.specs.Next.{HasSenderPlace};

use crate::leaving::leave;
use crate::next::{Next, Steps};
use crate::onward::{Onward, look_ahead};
use crate::peer::Peer;
use crate::placing::{Placing, place_all};
use crate::room::Room;
use crate::stages::{begun_row, reads_ahead};
use crate::worked::{WorkedAhead, work_where};
use chain_leader::read;
use graph_model::{Answer, CallId, Query};
use kv_part::KeyStore;
use lists::NoMemory;
use part_machine::{PlacedEntries, payloads_are_taken, reads_are_asked};
use raft_core::{
    NextPeer, RaftEffects, RaftInput, commits, keeps_decided, kept_is_all, only_leaders_propose,
};
use raft_log::{Entry, RaftMsg};
use replica_model::Place;
use replica_state::{ReplicaState, Rule, Told, hold, messages, values};
use std::alloc::Global;

/// What a step of the Raft peer asks of a replica beside its input: the rule that proposed, the sender of what is proposed, where
/// one is kept, and the read that begins a round, with its answer.
#[derive(Drop)]
pub(crate) struct Asking {
    pub told: Told,
    pub rule: Rule,
    pub sender: Option<Place>,
    pub viewed: Option<(CallId, Answer)>,
}

// A place for the sender of what is appended, and room for one more read and for so many more chains. Refused for want of memory
// alone.
fn make_room(
    state: &mut ReplicaState,
    appended: Option<(u64, Place)>,
    chains: usize,
) -> Result<(), NoMemory>
    ensures sender { OnOk result (HasSenderPlace state.new.senders.entries appended) }
    ensures rows { OnOk result (vec_len state.new.rows < vec_capacity state.new.rows) }
    ensures chains { OnOk result (chains ≤ state.new.leader.table.1) }
    ensures core { state.new.core ≡ state.old.core }
    ensures whose { state.new.whose ≡ state.old.whose }
    ensures replica { kept_of state.new ≡ kept_of state.old }
{
    if let Some((index, _)) = appended {
        hold(&mut state.senders, index)?;
    }
    state.rows.reserve(1)?;
    state.leader.table.reserve(chains)
}

impl<S: KeyStore> Peer<S> {
    ghost use Rattle.std.specs.Prelude.{◌≡◌, ◌<◌, ◌+◌, ◌^◌, suc, true, map, length, IfOk};
    ghost use Rattle.std.specs.Option.{option_map};
    ghost use Rattle.raft_core.specs.Ahead.{IsInput};
    ghost use Rattle.raft_core.specs.Peer.{core_of, core_next, IsNextBy};
    ghost use Rattle.raft_core.specs.Step.{stepped as raft_stepped};
    ghost use Rattle.raft_core.specs.declared.input.RaftInput.{RaftInput as RaftCame};
    ghost use Rattle.part_keys.specs.Fits.{HasSpelling};
    ghost use Rattle.part_keys.specs.Routing.{belongs};
    ghost use Rattle.part_keys.specs.declared.entry.PartEntry.TheVariants.{Read};
    ghost use Rattle.graph_bytes.specs.declared.id_form.IdForm.TheVariants.{Tagged};
    ghost use Rattle.part_machine.specs.Machine.{IsMachine};
    ghost use Rattle.replica_model.specs.Asks as model;
    ghost use Rattle.replica_model.specs.Replica.{machine_of};
    ghost use Rattle.replica_model.specs.Spelling.{values_of};
    ghost use Rattle.replica_model.specs.Stepped.{does, leaving, message_of, raft_step};
    ghost use Rattle.replica_model.specs.declared.input.Input.{Input as Came};
    ghost use Rattle.replica_state.specs.Asked.{ruled};
    ghost use Rattle.replica_peer.specs.Along.{IsWorked};
    ghost use Rattle.replica_peer.specs.Peer.{home_of, replica_of, IsReplica};
    ghost use Rattle.replica_peer.specs.Placed.{senders_behind, kinds_at};
    ghost use Rattle.replica_peer.specs.Room.{IsRoomOf, IsSame};
    ghost use Rattle.replica_peer.specs.Stages.{viewed_of, IsTold};
    ghost use Rattle.replica_peer.specs.Worked.{entries_at, sent_where};

    // What is committed, reserved by the machine. Refused for want of memory alone, and then none is reserved.
    fn place(
        &mut self,
        alloc: Global,
        at: &Onward,
        committed: &[Entry],
    ) -> Result<Placing, NoMemory>
        requires sound { IsReplica S.meaning S.has_place self.old }
        requires own { model.are_entries (home_of self.old) committed.now ≡ true }
        requires small { suc (replica_of self.old).core.commit + length committed.now < 2 ^ 64 }
        ensures entries { IfOk result (λ made. made.entries ≡ entries_at (suc (replica_of self.old).core.commit) (values_of (home_of self.old).spelling committed.now)) }
        ensures kinds { IfOk result (λ made. made.kinds.items ≡ kinds_at (senders_behind at.now.on at.now.appended (replica_of self.old).senders) (suc (replica_of self.old).core.commit) (values_of (home_of self.old).spelling committed.now)) }
        ensures shows { IfOk result (λ made. IsMachine S.meaning S.has_place (machine_of (home_of self.old) (replica_of self.old)) made.entries self.new.machine) }
        ensures state { self.new.state ≡ self.old.state }
        ensures same { IsSame S.meaning S.has_place self.old self.new }
    {
        payloads_are_taken();
        let items = values(alloc, committed)?;
        let first = self.state.core.state().commit + 1;
        let placing = place_all(alloc, items, first, &self.state.senders, at.on, at.appended)?;
        self.machine.reserve(alloc, &placing.entries)?;
        Ok(placing)
    }

    // What is committed, reserved by the machine and worked off ahead: what leaves of it stands behind the messages. Refused for want
    // of memory alone.
    fn work(
        &mut self,
        alloc: Global,
        at: &Onward,
        committed: &[Entry],
        sends: Vec<(u32, RaftMsg)>,
    ) -> Result<(PlacedEntries, WorkedAhead), NoMemory>
        requires sound { IsReplica S.meaning S.has_place self.old }
        requires part { at.now.by.part ≡ self.old.state.whose.part }
        requires own { model.are_entries (home_of self.old) committed.now ≡ true }
        requires small { suc (replica_of self.old).core.commit + length committed.now < 2 ^ 64 }
        ensures entries { IfOk result (λ made. made.0 ≡ entries_at (suc (replica_of self.old).core.commit) (values_of (home_of self.old).spelling committed.now)) }
        ensures shows { IfOk result (λ made. IsMachine S.meaning S.has_place (machine_of (home_of self.old) (replica_of self.old)) made.0 self.new.machine) }
        ensures worked { IfOk result (λ made. IsWorked (map leaving (map (message_of at.now.by.part at.now.by.me) sends.items))
            (sent_where at.now.leads (home_of self.old) at.now.by.me at.now.by.term (senders_behind at.now.on at.now.appended (replica_of self.old).senders) (machine_of (home_of self.old) (replica_of self.old)) at.now.ready
            (suc (replica_of self.old).core.commit) (values_of (home_of self.old).spelling committed.now))
            made.1) }
        ensures state { self.new.state ≡ self.old.state }
        ensures same { IsSame S.meaning S.has_place self.old self.new }
    {
        let placing = self.place(alloc, at, committed)?;
        let leaves = messages(alloc, at.by, sends)?;
        let worked = work_where(
            alloc,
            at.by,
            at.leads,
            at.ready,
            &self.machine,
            &placing,
            leaves,
        )?;
        Ok((placing.entries, worked))
    }

    // A step that the Raft peer takes. Refused for want of memory alone.
    fn plan_taken(
        &mut self,
        alloc: Global,
        asking: Asking,
        behind: NextPeer,
        effects: RaftEffects,
    ) -> Result<Room, NoMemory>
        requires sound { IsReplica S.meaning S.has_place self.old }
        requires next { (asked : RaftCame) × IsNextBy self.old.state.core asked effects behind }
        requires own { model.are_entries (home_of self.old) (core_next (core_of self.old.state.core).log behind).log ≡ true }
        ensures room { (asked : RaftCame) (input : Came) → IsNextBy self.old.state.core asked effects behind → IsTold input asking.told
            → IfOk result (λ room. IsRoomOf S.meaning S.has_place self.new (raft_step (home_of self.old) (replica_of self.old) input (raft_stepped (replica_of self.old).core asked) (ruled asking.rule (replica_of self.old).lead) asking.sender (option_map viewed_of asking.viewed)) room) }
        ensures same { IsSame S.meaning S.has_place self.old self.new }
    {
        kept_is_all();
        commits();
        keeps_decided();
        let RaftEffects {
            kept,
            sends,
            committed,
            began,
            confirmed,
            change,
        } = effects;
        let Asking {
            told,
            rule,
            sender,
            viewed,
        } = asking;
        let log = self.state.core.log();
        let _last = log.len();
        let _entries = log.entries();
        let _more = behind.entries.len();
        let at = look_ahead(&self.state, &behind, began, told, sender);
        let begun = begun_row(viewed, self.state.core.state().round, behind.state.round);
        let (placed, worked) = self.work(alloc, &at, committed.as_slice(), sends.into_vec())?;
        let WorkedAhead {
            leaves,
            rules,
            begins,
            ready,
        } = worked;
        make_room(&mut self.state, at.appended, begins.len())?;
        let (leaves, told) = leave(
            alloc,
            &self.state,
            &at,
            confirmed,
            told.pulses,
            &begun,
            rules,
            leaves,
        )?;
        let steps = Steps {
            core: Some(behind),
            on: at.on,
            rule,
            policy: at.policy,
            ready,
            sender: at.appended,
            reads: reads_ahead(at.keeps, begun),
            confirmed,
            placed,
            begins,
            told,
        };
        Ok(Room {
            kept,
            leaves,
            change,
            next: Next::Steps(steps),
        })
    }

    /// A step of the Raft peer. Refused for want of memory alone.
    pub(crate) fn plan_raft(
        &mut self,
        alloc: Global,
        asking: Asking,
        asked: RaftInput,
    ) -> Result<Room, NoMemory>
        requires sound { IsReplica S.meaning S.has_place self.old }
        requires input { IsInput asked }
        requires own { model.are_entries (home_of self.old) (raft_stepped (replica_of self.old).core asked).core.log ≡ true }
        ensures room { (input : Came) → IsTold input asking.told
            → IfOk result (λ room. IsRoomOf S.meaning S.has_place self.new (raft_step (home_of self.old) (replica_of self.old) input (raft_stepped (replica_of self.old).core asked) (ruled asking.rule (replica_of self.old).lead) asking.sender (option_map viewed_of asking.viewed)) room) }
        ensures same { IsSame S.meaning S.has_place self.old self.new }
    {
        only_leaders_propose();
        let made = self.state.core.reserve(alloc, &asked)?;
        let _log = self.state.core.log();
        match made.parted() {
            Ok((behind, effects)) => self.plan_taken(alloc, asking, behind, effects),
            Err(_) => self.plan_refused(alloc),
        }
    }

    /// A step of the Raft peer that begins a round, for a read. Refused for want of memory alone.
    pub(crate) fn plan_reads(
        &mut self,
        alloc: Global,
        told: Told,
        id: CallId,
        query: Query,
    ) -> Result<Room, NoMemory>
        requires sound { IsReplica S.meaning S.has_place self.old }
        requires mine { belongs self.old.state.whose.ids self.old.state.whose.parts self.old.state.whose.part (Read id query) ≡ true }
        requires spelled { HasSpelling Tagged (Read id query) }
        requires own { (input : Came) × (model.are_entries (home_of self.old) (does (home_of self.old) (replica_of self.old) input (model.Reads id query)).replica.core.log ≡ true) }
        ensures room { (input : Came) → IsTold input told → IfOk result (λ room. IsRoomOf S.meaning S.has_place self.new (does (home_of self.old) (replica_of self.old) input (model.Reads id query)) room) }
        ensures same { IsSame S.meaning S.has_place self.old self.new }
    {
        reads_are_asked();
        let found = self.machine.view(alloc, &query)?;
        let asking = Asking {
            told,
            rule: Rule::Stays,
            sender: None,
            viewed: Some((id, read(found))),
        };
        self.plan_raft(alloc, asking, RaftInput::Confirm)
    }
}
