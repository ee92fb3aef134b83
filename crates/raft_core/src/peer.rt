//! One peer of a group.
ghost use Rattle.std.specs.Prelude.{◌≡◌, ◌≤◌, ◌++◌, length, take, OnOk, OnErr, IfOk, IfErr, None, Some, if◌then◌else◌};
ghost use Rattle.raft_log.specs.Config.{AreEntries};
ghost use Rattle.raft_log.specs.Log.{config_index};
ghost use Rattle.raft_core.specs.Ahead.{core_with, IsInput, AreMessages};
ghost use Rattle.raft_core.specs.Core.{opened, is_leading, is_ready};
ghost use Rattle.raft_core.specs.Durable.{crashed};
ghost use Rattle.raft_core.specs.Laws.{IsPeer};
ghost use Rattle.raft_core.specs.Members as members;
ghost use Rattle.raft_core.specs.Peer as peers;
ghost use Rattle.raft_core.specs.Rounds.{confirmed_of};
ghost use Rattle.raft_core.specs.Step as rules;

use crate::effects::{NotLeader, RaftEffects};
use crate::giving;
use crate::input::RaftInput;
use crate::leader::matched_in;
use crate::made::Outcome;
use crate::next_log::NextLog;
use crate::next_peer::NextPeer;
use crate::outcome::outcome_of;
use crate::state::PeerState;
use crate::view::PeerView;
use crate::votes::leads;
use lists::{Listed, NoMemory};
use raft_log::{Entry, RaftLog, Role};
use std::alloc::Global;
use std::marker::Model;

/// One peer of a group: what it is, and its log. Contracts see both, the log with its spare.
#[derive(Drop)]
pub struct RaftCore {
    state: PeerState,
    log: RaftLog,
}

impl Model for RaftCore {
    ghost use Rattle.std.specs.Prelude.{List, ℕ};
    ghost use Rattle.std.specs.Coded.{coded_list, coded×, coded_ℕ};
    ghost use Rattle.raft_log.specs.declared.entry.Entry.{Entry};
    ghost use Rattle.raft_log.specs.contracts.entry.Entry as entry;
    ghost use Rattle.raft_core.specs.declared.state.PeerState.{PeerState};
    ghost use Rattle.raft_core.specs.contracts.state.PeerState as peer_state;
    ghost use Rattle.raft_core.specs.Ahead.{core_with};
    ghost use Rattle.raft_core.specs.Laws.{IsPeer};

    ghost Value = { PeerState × (List Entry × ℕ) };

    ghost coded = { coded× peer_state.the_row.coded (coded× (coded_list entry.the_row.coded) coded_ℕ) };

    ghost view = { λ it. (it.state, it.log) };

    ghost invariant = { λ it. IsPeer (core_with it.state it.log.0) };
}

/// Room for one step of a peer: the step made ahead, or its refusal.
#[derive(Drop)]
pub struct RaftRoom {
    made: Result<Outcome, NotLeader>,
}

impl RaftRoom {
    ghost use Rattle.raft_core.specs.declared.input.RaftInput.{RaftInput as Asked};
    ghost use Rattle.raft_core.specs.Peer.{Peer, core_of, IsRoomFor, IsNextBy};

    /// The step taken apart, before it is taken: what stands behind it, and what it gives. Refused exactly where the step
    /// would be.
    pub fn parted(self) -> Result<(NextPeer, RaftEffects), NotLeader>
        ensures parts { (peer : Peer) (input : Asked) → IsRoomFor peer input self → IfOk result (λ parts. IsNextBy peer input parts.1 parts.0) }
        ensures takes { (peer : Peer) (input : Asked) → IsRoomFor peer input self → OnOk result (rules.refusal (core_of peer) input ≡ None) }
        ensures refused { (peer : Peer) (input : Asked) → IsRoomFor peer input self → IfErr result (λ refused. rules.refusal (core_of peer) input ≡ Some refused) }
    {
        match self.made {
            Ok(made) => {
                let Outcome {
                    state,
                    keep,
                    entries,
                    effects,
                } = made;
                Ok((
                    NextPeer {
                        state,
                        keep,
                        entries,
                    },
                    effects,
                ))
            }
            Err(refused) => Err(refused),
        }
    }
}

// A log gets other entries behind those that stay.
fn rewrite(log: &mut RaftLog, keep: u64, entries: Vec<Entry>)
    requires within { keep ≤ length log.old.0 }
    requires room { length entries.items ≤ log.old.1 }
    requires items { AreEntries entries.items }
    ensures log { log.new.0 ≡ take keep log.old.0 ++ entries.items }
    ensures items { AreEntries log.new.0 }
{
    if keep < log.len() {
        log.cut_from(keep + 1);
    }
    log.extend(entries);
    let _behind = log.entries();
}

// What a follower with commit 0 is, beside its log.
fn follower(alloc: Global, me: u32, term: u64, vote: u32) -> PeerState
    ensures { result ≡ peers.follower me term vote }
{
    PeerState {
        me,
        term,
        vote,
        role: Role::Follower,
        commit: 0,
        hint: 0,
        heard: false,
        votes: Listed::new(alloc),
        noop: 0,
        round: 0,
        rows: Listed::new(alloc),
    }
}

impl RaftCore {
    ghost use Rattle.raft_core.specs.Outcome.{stepped_by};
    ghost use Rattle.raft_core.specs.declared.effects.RaftEffects.{RaftEffects as Effects};
    ghost use Rattle.raft_core.specs.declared.input.RaftInput.{RaftInput as Asked};
    ghost use Rattle.raft_core.specs.declared.peer.RaftRoom.{RaftRoom as Room};
    ghost use Rattle.raft_core.specs.Peer.{core_of, core_next, view_of, IsMadeFor, IsRoomFor, IsNextBy};

    /// A follower with commit 0. It takes no memory until it steps.
    pub fn open(alloc: Global, me: u32, term: u64, vote: u32, log: RaftLog) -> RaftCore
        ensures { core_of result ≡ opened me term vote log.0 }
    {
        let state = follower(alloc, me, term, vote);
        RaftCore { state, log }
    }

    /// What a crash leaves: a follower with commit 0, of the same term, vote and log.
    pub fn crash(&mut self, alloc: Global)
        ensures { core_of self.new ≡ crashed (core_of self.old) }
    {
        self.state = follower(alloc, self.state.me, self.state.term, self.state.vote);
    }

    /// What the peer is, beside its log.
    pub fn state(&self) -> &PeerState
        ensures { result.now ≡ self.now.0 }
    {
        &self.state
    }

    /// The log. What holds of each peer holds of this one.
    pub fn log(&self) -> &RaftLog
        ensures log { result.now.0 ≡ (core_of self.now).log }
        ensures peer { IsPeer (core_of self.now) }
    {
        &self.log
    }

    /// The greatest round of this leader that a majority of its voters has confirmed, 0 at another role.
    pub fn confirmed(&self) -> u64
        ensures { result ≡ confirmed_of (core_of self.now) }
    {
        let log = NextLog::new(&self.log, self.log.len(), &[]);
        giving::confirmed_of(&self.state, &log)
    }

    /// The match index of a member at the leader, else 0.
    pub fn matched(&self, peer: u32) -> u64
        ensures { result ≡ (if is_leading (core_of self.now).role then members.matched_in (core_of self.now).rows peer else 0) }
    {
        if !leads(self.state.role) {
            return 0;
        }
        matched_in(self.state.rows.as_slice(), peer)
    }

    /// What is seen of the peer.
    pub fn view(&self) -> PeerView
        ensures { result ≡ view_of (core_of self.now) }
    {
        PeerView {
            up: true,
            role: self.state.role,
            term: self.state.term,
            commit: self.state.commit,
            last: self.log.len(),
            latest: self.log.config(),
            decided: self.log.config_up_to(self.state.commit),
            ready: self.is_ready(),
        }
    }

    /// The index of the last configuration behind a step that was made ahead, 0 where there is none.
    pub fn config_index(&self, behind: &NextPeer) -> u64
        requires { behind.now.keep ≤ length (core_of self.now).log }
        ensures { result ≡ config_index (core_next (core_of self.now).log behind.now).log }
    {
        NextLog::new(&self.log, behind.keep, behind.entries.as_slice()).config_index()
    }

    // Whether the peer leads, and has committed its no-op.
    fn is_ready(&self) -> bool
        ensures { result ≡ is_ready (core_of self.now) }
    {
        leads(self.state.role) && self.state.noop <= self.state.commit
    }

    /// Room for one step with this input. Refused for want of memory alone. The peer stays as it is, but for room in its
    /// log; a room that was made for it before is one still.
    pub fn reserve(&mut self, alloc: Global, input: &RaftInput) -> Result<RaftRoom, NoMemory>
        requires { IsInput input.now }
        ensures room { IfOk result (IsRoomFor self.new input.now) }
        ensures same { core_of self.new ≡ core_of self.old }
        ensures stands { (other : Asked) (room : Room) → IsRoomFor self.old other room → IsRoomFor self.new other room }
    {
        if let Some(refused) = giving::refusal(&self.state, &self.log, input) {
            return Ok(RaftRoom { made: Err(refused) });
        }
        let made = outcome_of(alloc, &self.state, &self.log, input)?;
        self.log.reserve(made.entries.len())?;
        Ok(RaftRoom { made: Ok(made) })
    }

    /// One step, in the room that was made for it. It is refused exactly where only a leader takes the input and the peer
    /// doesn't lead; then nothing changes.
    pub fn step(&mut self, room: RaftRoom, input: RaftInput) -> Result<RaftEffects, NotLeader>
        requires { IsRoomFor self.old input room }
        ensures stepped { IfOk result (λ effects. stepped_by (core_of self.new) effects ≡ rules.stepped (core_of self.old) input) }
        ensures takes { OnOk result (rules.refusal (core_of self.old) input ≡ None) }
        ensures messages { IfOk result (λ effects. AreMessages effects.sends) }
        ensures refused { IfErr result (λ refused. rules.refusal (core_of self.old) input ≡ Some refused) }
        ensures unchanged { OnErr result (self.new ≡ self.old) }
    {
        match room.made {
            Ok(made) => Ok(self.go_on(made, &input)),
            Err(refused) => Err(refused),
        }
    }

    // The peer becomes what stands behind its step.
    fn go_on(&mut self, made: Outcome, _input: &RaftInput) -> RaftEffects
        requires { IsMadeFor self.old _input.now made }
        ensures stepped { stepped_by (core_of self.new) result ≡ rules.stepped (core_of self.old) _input.now }
        ensures messages { AreMessages result.sends }
    {
        rewrite(&mut self.log, made.keep, made.entries);
        self.state = made.state;
        made.effects
    }

    /// The peer becomes what stands behind a step that was made for it and taken apart. It takes no memory.
    pub fn move_on(&mut self, behind: NextPeer)
        requires { (input : Asked) × (effects : Effects) × IsNextBy self.old input effects behind }
        ensures { core_of self.new ≡ core_next (core_of self.old).log behind }
    {
        rewrite(&mut self.log, behind.keep, behind.entries);
        self.state = behind.state;
    }
}
