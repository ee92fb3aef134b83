//! What an input asks of a replica: the kinds of packets and ticks are told apart here, once.
ghost use Rattle.std.specs.Prelude.{◌≡◌, ◌<◌, ◌&&◌, IfOk, IfSome, None, map};
ghost use Rattle.std.specs.Ordering.{eq_by_cmp};
ghost use Rattle.graph_model.specs.Keys.{call_cmp};
ghost use Rattle.std.specs.Option.{is_some};
ghost use Rattle.graph_bytes.specs.declared.id_form.IdForm.TheVariants.{Tagged};
ghost use Rattle.part_keys.specs.Fits.{HasSpelling};
ghost use Rattle.part_keys.specs.declared.entry.PartEntry.TheVariants.{Remote, Fence};
ghost use Rattle.chain_leader.specs.Leader.{is_resume};
ghost use Rattle.chain_leader.specs.Calls as calls;
ghost use Rattle.chain_leader.specs.Leading as rules;
ghost use Rattle.part_keys.specs.Routing as routes;
ghost use Rattle.replica_model.specs.Asks as model;
ghost use Rattle.replica_model.specs.declared.input.Tick.TheVariants as ticks;
ghost use Rattle.replica_model.specs.Replica as replicas;
ghost use Rattle.raft_core.specs.Ahead.{IsMessage};
ghost use Rattle.replica_state.specs.Asked.{offered, asked_of, IsSound};
ghost use Rattle.replica_state.specs.State as peers;
ghost use Rattle.replica_state.specs.declared.whose.Whose.{Whose as Who};

use crate::asked::{Asked, Rule};
use crate::entries::{VERSION, are_entries};
use crate::offer::{Offer, given_up, taken};
use crate::state::ReplicaState;
use crate::waiting::WaitingRead;
use crate::whose::Whose;
use chain_leader::{About, ChainBody, call_in};
use graph_model::{CallId, EdgeHalves, Edges, Query};
use lists::NoMemory;
use member_change::Change;
use part_keys::{PartEntry, belongs, write_entry};
use raft_core::{RaftInput, leads};
use raft_log::RaftMsg;
use replica_model::{Body, Input, Packet, Place, Tick};
use std::alloc::Global;

/// Whether it is a peer's place.
fn is_peer(from: Place) -> bool
    ensures { result ≡ model.is_peer from }
{
    match from {
        Place::Client(_) => false,
        Place::Peer(_, _) => true,
    }
}

/// The part of a peer, 0 of a client.
fn part_from(from: Place) -> u32
    ensures { result ≡ model.part_from from }
{
    match from {
        Place::Client(_) => 0,
        Place::Peer(part, _) => part,
    }
}

/// Whether that is a place from which this may come: a Remote and a Fence come from a peer.
fn is_sender(said: &ChainBody, from: Place) -> bool
    ensures { result ≡ model.is_sender said.now from }
{
    match said {
        ChainBody::Remote(_, _, _) => is_peer(from),
        ChainBody::Fence(_, _, _) => is_peer(from),
        _ => true,
    }
}

/// The sender that is kept: that of a Remote or a Fence.
fn kept_sender(from: Place, said: &ChainBody) -> Option<Place>
    ensures { result ≡ model.kept_sender from said.now }
{
    match said {
        ChainBody::Remote(_, _, _) => Some(from),
        ChainBody::Fence(_, _, _) => Some(from),
        _ => None,
    }
}

/// A message of the own part's group. Refused for want of memory alone.
fn asks_message(alloc: Global, s: Whose, from: Place, message: RaftMsg) -> Result<Asked, NoMemory>
    requires parts { 0 < s.parts }
    requires heard { IsMessage message }
    ensures asked { (r : replicas.Replica) → IfOk result (λ asked. asked_of (peers.home_in s) r asked ≡ model.asks_message (peers.home_in s) r from message) }
    ensures sound { IfOk result (IsSound s) }
{
    let Place::Peer(part, peer) = from else {
        return Ok(Asked::Nothing);
    };
    if part != s.part {
        return Ok(Asked::Nothing);
    }
    if !may_hear(alloc, s, &message)? {
        return Ok(Asked::Nothing);
    }
    Ok(Asked::Raft(RaftInput::Msg(peer, message), Rule::Stays, None))
}

/// Whether each payload that a message brings is an entry of the part. Refused for want of memory alone.
fn may_hear(alloc: Global, s: Whose, message: &RaftMsg) -> Result<bool, NoMemory>
    requires { 0 < s.parts }
    ensures { IfOk result (λ may. may ≡ model.may_hear (peers.home_in s) message.now) }
{
    match message {
        RaftMsg::Append(_, _, _, _, entries) => are_entries(alloc, s, entries.as_slice()),
        _ => Ok(true),
    }
}

/// What an offer asks. Refused for want of memory alone.
fn offers(alloc: Global, offer: Offer, sender: Option<Place>) -> Result<Asked, NoMemory>
    requires { IfSome offer (λ made. HasSpelling Tagged made.0) }
    ensures asked { (s : Who) (r : replicas.Replica) → IfOk result (λ asked. asked_of (peers.home_in s) r asked ≡ model.offers (peers.home_in s).spelling (offered r.lead offer) sender) }
    ensures sound { (s : Who) → IfOk result (IsSound s) }
{
    let Some((entry, rule)) = offer else {
        return Ok(Asked::Quiet);
    };
    let bytes = write_entry(alloc, &entry, VERSION)?;
    Ok(Asked::Raft(RaftInput::Propose(bytes), rule, sender))
}

/// The sender of what isn't taken is told who may lead, where it has to be told.
fn refuses(from: Place, other: Option<About>) -> Asked
    ensures asked { (home : replicas.Home) (r : replicas.Replica) → asked_of home r result ≡ model.refuses from other }
    ensures sound { (s : Who) → IsSound s result }
{
    match other {
        None => Asked::Nothing,
        Some(other) => Asked::Refuses(from, other),
    }
}

/// About this, where the entry is one of the part.
fn told_of(gives: bool, other: About) -> Option<About>
    ensures { result ≡ model.told_of gives other }
{
    if gives { Some(other) } else { None }
}

// Whether the entry is a call's, and belongs to the part.
fn is_call_of(s: Whose, entry: &PartEntry) -> bool
    requires { 0 < s.parts }
    ensures { result ≡ (is_some (calls.call_in entry.now) && routes.belongs s.ids s.parts s.part entry.now) }
{
    if call_in(entry).is_none() {
        return false;
    }
    belongs(s.ids, s.parts, s.part, entry)
}

// Whether the entry belongs to the part, and the entry.
fn whether_own(s: Whose, entry: PartEntry) -> (bool, PartEntry)
    requires { 0 < s.parts }
    ensures { result ≡ (routes.belongs s.ids s.parts s.part entry, entry) }
{
    let mine = belongs(s.ids, s.parts, s.part, &entry);
    (mine, entry)
}

// Whether a Remote of these comes from a peer, and belongs to the part. The list is given back.
fn is_remote_of(s: Whose, from: Place, term: u64, v: u64, list: EdgeHalves) -> bool
    requires { 0 < s.parts }
    ensures { result ≡ (model.is_peer from && routes.belongs s.ids s.parts s.part (Remote (model.part_from from) term v list)) }
{
    if !is_peer(from) {
        return false;
    }
    let entry = PartEntry::Remote(part_from(from), term, v, list);
    belongs(s.ids, s.parts, s.part, &entry)
}

// Whether a Fence of these comes from a peer, and belongs to the part.
fn is_fence_of(s: Whose, from: Place, term: u64, v: u64, edges: Edges) -> bool
    requires { 0 < s.parts }
    ensures { result ≡ (model.is_peer from && routes.belongs s.ids s.parts s.part (Fence (model.part_from from) term v edges)) }
{
    if !is_peer(from) {
        return false;
    }
    let entry = PartEntry::Fence(part_from(from), term, v, edges);
    belongs(s.ids, s.parts, s.part, &entry)
}

/// What the sender is told about, at a replica that doesn't lead.
fn about_in(s: Whose, from: Place, said: ChainBody) -> Option<About>
    requires { 0 < s.parts }
    ensures { result ≡ model.about_in (peers.home_in s) from said }
{
    match said {
        ChainBody::Request(number, entry) => told_of(is_call_of(s, &entry), About::Call(number)),
        ChainBody::Remote(term, v, list) => {
            told_of(is_remote_of(s, from, term, v, list), About::Chain(v))
        }
        ChainBody::Fence(term, v, edges) => {
            told_of(is_fence_of(s, from, term, v, edges), About::Chain(v))
        }
        _ => None,
    }
}

impl ReplicaState {
    ghost use Rattle.std.specs.Prelude.{◌≡◌, ◌<◌, ℕ, false, true, None, IfOk, IfSome};
    ghost use Rattle.replica_model.specs.declared.packet.Place.{Place as Where};
    ghost use Rattle.part_keys.specs.declared.entry.PartEntry.TheVariants.{Read};
    ghost use Rattle.chain_leader.specs.declared.body.ChainBody.TheVariants.{Request, Resume};

    /// Whether it leads.
    pub(crate) fn leads(&self) -> bool
        ensures { result ≡ replicas.leads (peers.replica_of self.now) }
    {
        leads(self.core.view().role)
    }

    /// Whether a read of that call waits.
    fn is_waiting(&self, id: CallId) -> bool
        ensures { result ≡ replicas.waits (peers.replica_of self.now).rows id }
    {
        waits(self.rows.as_slice(), id)
    }

    // A NotLeader about a chain of the table is a hint.
    fn points(&self, v: u64, peer: u32) -> Asked
        ensures asked { asked_of (peers.home_of self.now) (peers.replica_of self.now) result ≡ model.points (peers.replica_of self.now) (record { chain = v; peer = peer }) }
        ensures sound { IsSound self.now.whose result }
    {
        if self.leader.table.get(v).is_none() {
            return Asked::Nothing;
        }
        Asked::Points(v, peer)
    }

    // A read is taken by a ready leader, once, where it is one of the part.
    fn reads(&self, mine: bool, id: CallId, query: Query) -> Asked
        requires spelled { HasSpelling Tagged (Read id query) }
        requires mine { mine ≡ routes.belongs self.now.whose.ids self.now.whose.parts self.now.whose.part (Read id query) }
        ensures asked { asked_of (peers.home_of self.now) (peers.replica_of self.now) result ≡ model.reads (peers.home_of self.now) (peers.replica_of self.now) (record { id = id; query = query }) }
        ensures sound { IsSound self.now.whose result }
    {
        if !self.leader.ready {
            return Asked::Nothing;
        }
        if !mine {
            return Asked::Nothing;
        }
        if self.is_waiting(id) {
            return Asked::Nothing;
        }
        Asked::Reads(id, query)
    }

    // A Resume of the own term is taken by a ready leader.
    fn resumes(&self, of: u64, after: Option<u64>) -> Asked
        ensures asked { (from : Where) → asked_of (peers.home_of self.now) (peers.replica_of self.now) result ≡ model.takes (peers.home_of self.now) (peers.replica_of self.now) from (Resume of after) }
        ensures sound { IsSound self.now.whose result }
    {
        if !self.leader.ready || of != self.core.view().term {
            return Asked::Quiet;
        }
        Asked::Resumes(after)
    }

    // What a leader of the own term makes of what a packet says, but for a Resume.
    fn taken_by(&self, from: Place, said: ChainBody) -> Offer
        requires parts { 0 < self.now.whose.parts }
        requires resume { is_resume said ≡ false }
        ensures offered { offered (peers.replica_of self.now).lead result ≡ rules.taken self.now.whose.ids self.now.whose.parts self.now.whose.part (peers.replica_of self.now).core.term (replicas.machine_of (peers.home_of self.now) (peers.replica_of self.now)) (peers.replica_of self.now).lead said (model.part_from from) }
        ensures spelled { peers.IsHeardSaid said → peers.IsSourced said (model.part_from from) → IfSome result (λ made. HasSpelling Tagged made.0) }
    {
        let term = self.core.view().term;
        taken(&self.leader, self.whose, term, said, part_from(from))
    }

    // What that asks. Refused for want of memory alone.
    fn offers_of(&self, alloc: Global, from: Place, said: ChainBody) -> Result<Asked, NoMemory>
        requires parts { 0 < self.now.whose.parts }
        requires resume { is_resume said ≡ false }
        requires sender { model.is_sender said from ≡ true }
        requires place { peers.IsHeardPlace from }
        requires heard { peers.IsHeardSaid said }
        ensures asked { IfOk result (λ asked. asked_of (peers.home_of self.now) (peers.replica_of self.now) asked ≡ model.offers (peers.home_of self.now).spelling (rules.taken self.now.whose.ids self.now.whose.parts self.now.whose.part (peers.replica_of self.now).core.term (replicas.machine_of (peers.home_of self.now) (peers.replica_of self.now)) (peers.replica_of self.now).lead said (model.part_from from)) (model.kept_sender from said)) }
        ensures sound { IfOk result (IsSound self.now.whose) }
    {
        let sender = kept_sender(from, &said);
        let offer = self.taken_by(from, said);
        offers(alloc, offer, sender)
    }

    // All else goes by what a leader does with a packet. Refused for want of memory alone.
    fn takes(&self, alloc: Global, from: Place, said: ChainBody) -> Result<Asked, NoMemory>
        requires parts { 0 < self.now.whose.parts }
        requires resume { is_resume said ≡ false }
        requires place { peers.IsHeardPlace from }
        requires heard { peers.IsHeardSaid said }
        ensures asked { IfOk result (λ asked. asked_of (peers.home_of self.now) (peers.replica_of self.now) asked ≡ model.takes (peers.home_of self.now) (peers.replica_of self.now) from said) }
        ensures sound { IfOk result (IsSound self.now.whose) }
    {
        if !is_sender(&said, from) {
            return Ok(Asked::Nothing);
        }
        self.offers_of(alloc, from, said)
    }

    // What a Request asks of a leader. Refused for want of memory alone.
    fn requested(
        &self,
        alloc: Global,
        from: Place,
        number: u64,
        entry: PartEntry,
    ) -> Result<Asked, NoMemory>
        requires parts { 0 < self.now.whose.parts }
        requires place { peers.IsHeardPlace from }
        requires heard { peers.IsHeardSaid (Request number entry) }
        ensures asked { IfOk result (λ asked. asked_of (peers.home_of self.now) (peers.replica_of self.now) asked ≡ model.asks_leader (peers.home_of self.now) (peers.replica_of self.now) from (Request number entry) None (model.query_of entry)) }
        ensures sound { IfOk result (IsSound self.now.whose) }
    {
        let (mine, entry) = whether_own(self.whose, entry);
        match entry {
            PartEntry::Read(id, query) => Ok(self.reads(mine, id, query)),
            other => self.takes(alloc, from, ChainBody::Request(number, other)),
        }
    }

    // Something about calls and chains, at a leader. Refused for want of memory alone.
    fn asks_leader(&self, alloc: Global, from: Place, said: ChainBody) -> Result<Asked, NoMemory>
        requires parts { 0 < self.now.whose.parts }
        requires place { peers.IsHeardPlace from }
        requires heard { peers.IsHeardSaid said }
        ensures asked { IfOk result (λ asked. asked_of (peers.home_of self.now) (peers.replica_of self.now) asked ≡ model.asks_leader (peers.home_of self.now) (peers.replica_of self.now) from said (model.hint_in said) (model.read_in said)) }
        ensures sound { IfOk result (IsSound self.now.whose) }
    {
        match said {
            ChainBody::NotLeader(other, _, peer) => match other {
                About::Call(_) => Ok(Asked::Quiet),
                About::Chain(v) => Ok(self.points(v, peer)),
            },
            ChainBody::Request(number, entry) => self.requested(alloc, from, number, entry),
            ChainBody::Resume(of, after) => Ok(self.resumes(of, after)),
            ChainBody::Answer(_, _) => Ok(Asked::Quiet),
            ChainBody::Stale(_, _, _) => Ok(Asked::Quiet),
            ChainBody::Remote(term, v, list) => {
                self.takes(alloc, from, ChainBody::Remote(term, v, list))
            }
            ChainBody::Fence(term, v, edges) => {
                self.takes(alloc, from, ChainBody::Fence(term, v, edges))
            }
            ChainBody::Done(term, v) => self.takes(alloc, from, ChainBody::Done(term, v)),
            ChainBody::Fenced(term, v, written) => {
                self.takes(alloc, from, ChainBody::Fenced(term, v, written))
            }
        }
    }

    // Something about calls and chains. Refused for want of memory alone.
    fn asks_chain(&self, alloc: Global, from: Place, said: ChainBody) -> Result<Asked, NoMemory>
        requires parts { 0 < self.now.whose.parts }
        requires place { peers.IsHeardPlace from }
        requires heard { peers.IsHeardSaid said }
        ensures asked { IfOk result (λ asked. asked_of (peers.home_of self.now) (peers.replica_of self.now) asked ≡ model.asks_chain (peers.home_of self.now) (peers.replica_of self.now) from said) }
        ensures sound { IfOk result (IsSound self.now.whose) }
    {
        if !self.leads() {
            return Ok(refuses(from, about_in(self.whose, from, said)));
        }
        self.asks_leader(alloc, from, said)
    }

    // A tick. Refused for want of memory alone.
    fn asks_tick(&self, alloc: Global, tick: Tick) -> Result<Asked, NoMemory>
        ensures asked { IfOk result (λ asked. asked_of (peers.home_of self.now) (peers.replica_of self.now) asked ≡ model.asks_tick (peers.home_of self.now) (peers.replica_of self.now) tick) }
        ensures sound { IfOk result (IsSound self.now.whose) }
    {
        match tick {
            Tick::Elect(_) => Ok(Asked::Raft(RaftInput::Elect, Rule::Stays, None)),
            Tick::Pulse => Ok(Asked::Raft(RaftInput::Pulse, Rule::Stays, None)),
            Tick::GiveUp(id) => self.gives_up(alloc, id),
            Tick::Transfer(peer) => Ok(Asked::Raft(RaftInput::Transfer(peer), Rule::Stays, None)),
            Tick::Change(change) => Ok(changes(change)),
        }
    }

    // A call is given up. Refused for want of memory alone.
    fn gives_up(&self, alloc: Global, id: CallId) -> Result<Asked, NoMemory>
        ensures asked { IfOk result (λ asked. asked_of (peers.home_of self.now) (peers.replica_of self.now) asked ≡ model.asks_tick (peers.home_of self.now) (peers.replica_of self.now) (ticks.GiveUp id)) }
        ensures sound { IfOk result (IsSound self.now.whose) }
    {
        if !self.leads() {
            return Ok(Asked::Nothing);
        }
        offers(alloc, given_up(&self.leader, id), None)
    }

    /// What an input asks: an input that the Raft peer takes, or a read that the part's machine answers. Refused for want of
    /// memory alone.
    pub fn asks(&self, alloc: Global, input: Input) -> Result<Asked, NoMemory>
        requires parts { 0 < self.now.whose.parts }
        requires heard { peers.IsHeard input }
        ensures asked { IfOk result (λ asked. asked_of (peers.home_of self.now) (peers.replica_of self.now) asked ≡ model.asks (peers.home_of self.now) (peers.replica_of self.now) input) }
        ensures sound { IfOk result (IsSound self.now.whose) }
    {
        match input {
            Input::Sent(Packet { from, to: _, body }) => match body {
                Body::Raft(message) => asks_message(alloc, self.whose, from, message),
                Body::Chain(said) => self.asks_chain(alloc, from, said),
            },
            Input::Tick(tick) => self.asks_tick(alloc, tick),
        }
    }
}

// Whether it is a read of that call.
fn is_read_of(row: &WaitingRead, id: CallId) -> bool
    ensures { result ≡ eq_by_cmp call_cmp row.now.id id }
{
    row.id.cmp(&id).is_eq()
}

// Whether one of these is a read of that call.
fn waits(rows: &[WaitingRead], id: CallId) -> bool
    ensures { result ≡ replicas.waits (map peers.row_of rows.now) id }
{
    for row in rows {
        if is_read_of(row, id) {
            return true;
        }
    }
    false
}

// A change of the members, of a peer from 1 on.
fn changes(change: Change) -> Asked
    ensures asked { (home : replicas.Home) (r : replicas.Replica) → asked_of home r result ≡ model.asks_tick home r (ticks.Change change) }
    ensures sound { (s : Who) → IsSound s result }
{
    if change.member() == 0 {
        return Asked::Nothing;
    }
    Asked::Raft(RaftInput::Change(change), Rule::Stays, None)
}
