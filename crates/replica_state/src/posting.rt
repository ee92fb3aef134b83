//! Where what a replica says goes, and what of it leaves.
ghost use Rattle.std.specs.Prelude.{◌≡◌, ◌∷◌, ◌++◌, [], map, IfOk, OnOk};
ghost use Rattle.std.specs.List.{filter};
ghost use Rattle.std.specs.Option.{option_to_list};
ghost use Rattle.replica_model.specs.Letters as letters;
ghost use Rattle.replica_model.specs.Stepped as steps;
ghost use Rattle.replica_state.specs.Leaving.{leaving_of};
ghost use Rattle.replica_state.specs.Places.{number_held};
ghost use Rattle.replica_state.specs.State.{row_of};

use crate::leaving::{Leaves, Leaving};
use crate::places::{Places, at};
use crate::state::ReplicaState;
use crate::waiting::{WaitingRead, copied_answer};
use chain_leader::{About, ChainBody, Letter};
use lists::{Listed, NoMemory};
use raft_log::RaftMsg;
use replica_model::{Body, Packet, Place, To};
use std::alloc::Global;

/// Who writes: a peer of a part, in its term.
#[derive(Clone, Copy)]
pub struct Writer {
    pub part: u32,
    pub me: u32,
    pub term: u64,
}

/// Back to a place.
fn to_place(place: Place) -> To
    ensures { result ≡ letters.to_place place }
{
    match place {
        Place::Client(client) => To::Client(client),
        Place::Peer(part, peer) => To::Peer(part, peer),
    }
}

/// To the peer of the hint, or where there is none to the one of that try.
fn to_part(part: u32, tries: u32, hint: u32) -> To
    ensures { result ≡ letters.to_part part tries hint }
{
    if hint == 0 {
        To::Part(part, tries)
    } else {
        To::Peer(part, hint)
    }
}

/// A packet about calls and chains.
fn packet_of(by: Writer, to: To, said: ChainBody) -> Packet
    ensures { result ≡ letters.packet_of by.part by.me to said }
{
    Packet {
        from: Place::Peer(by.part, by.me),
        to,
        body: Body::Chain(said),
    }
}

/// What answers a Remote or a Fence, to the sender that is kept.
fn back_to(by: Writer, sender: Option<Place>, said: ChainBody) -> Option<Packet>
    ensures { result ≡ letters.back_to by.part by.me sender said }
{
    let Some(place) = sender else {
        return None;
    };
    Some(packet_of(by, to_place(place), said))
}

/// The chain that a leader writes about, by a Remote or a Fence; 0 where it writes about none.
pub fn chain_of(said: &ChainBody) -> u64
    ensures { result ≡ letters.chain_of said.now }
{
    match said {
        ChainBody::Remote(_, v, _) => *v,
        ChainBody::Fence(_, v, _) => *v,
        _ => 0,
    }
}

/// The hint of a chain, 0 where it has none.
fn hint_of(hints: &Places<u32>, v: u64) -> u32
    ensures { result ≡ number_held hints.now.entries v }
{
    match at(hints, v) {
        None => 0,
        Some(peer) => peer,
    }
}

/// A leader's letter as a packet, by the hints of its chains and the sender that is kept.
fn addressed(
    by: Writer,
    hints: &Places<u32>,
    sender: Option<Place>,
    letter: Letter,
) -> Option<Packet>
    ensures { result ≡ letters.addressed by.part by.me by.term (number_held hints.now.entries) sender letter }
{
    match letter {
        Letter::Tell(id, answer) => {
            let said = ChainBody::Answer(id.number, answer);
            Some(packet_of(by, To::Client(id.client), said))
        }
        Letter::Cross(part, tries, said) => {
            let hint = hint_of(hints, chain_of(&said));
            Some(packet_of(by, to_part(part, tries, hint), said))
        }
        Letter::Back(said) => back_to(by, sender, said),
        Letter::Again(after) => {
            let said = ChainBody::Resume(by.term, after);
            Some(packet_of(by, To::Peer(by.part, by.me), said))
        }
    }
}

/// What a leader says leaves as a packet, behind what leaves already. Refused for want of memory alone.
pub fn post(
    by: Writer,
    hints: &Places<u32>,
    sender: Option<Place>,
    letter: Option<Letter>,
    leaves: &mut Leaves,
) -> Result<(), NoMemory>
    ensures { OnOk result (map leaving_of leaves.new ≡ map leaving_of leaves.old ++ map steps.leaving (letters.packets_of by.part by.me by.term (number_held hints.now.entries) sender (option_to_list letter))) }
{
    let Some(letter) = letter else {
        return Ok(());
    };
    let Some(packet) = addressed(by, hints, sender, letter) else {
        return Ok(());
    };
    leaves.push(Leaving { packet, round: 0 })?;
    Ok(())
}

/// What a leader says leaves, in order, behind what leaves already. Refused for want of memory alone.
pub fn post_all(
    by: Writer,
    hints: &Places<u32>,
    sender: Option<Place>,
    list: Vec<Letter>,
    leaves: &mut Leaves,
) -> Result<(), NoMemory>
    ensures { OnOk result (map leaving_of leaves.new ≡ map leaving_of leaves.old ++ map steps.leaving (letters.packets_of by.part by.me by.term (number_held hints.now.entries) sender list.items)) }
{
    for letter in list {
        post(by, hints, sender, Some(letter), leaves)?;
    }
    Ok(())
}

/// A message of the Raft step as a packet.
fn message_of(by: Writer, to: u32, message: RaftMsg) -> Packet
    ensures { result ≡ steps.message_of by.part by.me (to, message) }
{
    Packet {
        from: Place::Peer(by.part, by.me),
        to: To::Peer(by.part, to),
        body: Body::Raft(message),
    }
}

/// The messages of a Raft step, as they leave. Refused for want of memory alone.
pub fn messages(alloc: Global, by: Writer, sends: Vec<(u32, RaftMsg)>) -> Result<Leaves, NoMemory>
    ensures { IfOk result (λ leaves. map leaving_of leaves ≡ map steps.leaving (map (steps.message_of by.part by.me) sends.items)) }
{
    let mut leaves = Listed::with_capacity(alloc, sends.len())?;
    for (to, message) in sends {
        let packet = message_of(by, to, message);
        leaves.push(Leaving { packet, round: 0 })?;
    }
    Ok(leaves)
}

// A read's answer, as it leaves. Refused for want of memory alone.
fn answer_row(alloc: Global, by: Writer, row: &WaitingRead) -> Result<Leaving, NoMemory>
    ensures { IfOk result (λ leaving. leaving_of leaving ≡ steps.answer_row by.part by.me (row_of row.now)) }
{
    let said = ChainBody::Answer(row.id.number, copied_answer(alloc, &row.answer)?);
    Ok(Leaving {
        packet: packet_of(by, To::Client(row.id.client), said),
        round: row.round,
    })
}

// Whether the round of a read is confirmed.
fn is_confirmed(confirmed: u64, row: &WaitingRead) -> bool
    ensures { result ≡ steps.is_confirmed confirmed (row_of row.now) }
{
    row.round <= confirmed
}

/// The answers of the reads whose round is confirmed, in their order, as they leave. Refused for want of memory alone.
pub fn answers(
    alloc: Global,
    by: Writer,
    confirmed: u64,
    rows: &[WaitingRead],
) -> Result<Leaves, NoMemory>
    ensures { IfOk result (λ leaves. map leaving_of leaves ≡ map (steps.answer_row by.part by.me) (filter (steps.is_confirmed confirmed) (map row_of rows.now))) }
{
    let mut leaves = Listed::new(alloc);
    for row in rows {
        if is_confirmed(confirmed, row) {
            leaves.push(answer_row(alloc, by, row)?)?;
        }
    }
    Ok(leaves)
}

/// The same, with the answer of the read that begins its round in this step, behind them. Refused for want of memory alone.
pub fn answers_with(
    alloc: Global,
    by: Writer,
    confirmed: u64,
    rows: &[WaitingRead],
    begun: &Option<WaitingRead>,
) -> Result<Leaves, NoMemory>
    ensures { IfOk result (λ leaves. map leaving_of leaves ≡ map (steps.answer_row by.part by.me) (filter (steps.is_confirmed confirmed) (map row_of rows.now ++ map row_of (option_to_list begun.now)))) }
{
    let mut leaves = answers(alloc, by, confirmed, rows)?;
    if let Some(row) = begun {
        if is_confirmed(confirmed, row) {
            leaves.push(answer_row(alloc, by, row)?)?;
        }
    }
    Ok(leaves)
}

impl ReplicaState {
    ghost use Rattle.std.specs.Prelude.{◌≡◌};
    ghost use Rattle.replica_model.specs.Stepped.{leaving, refusal_to};
    ghost use Rattle.replica_state.specs.State.{home_of, replica_of};
    ghost use Rattle.replica_state.specs.Leaving.{leaving_of as left};

    /// Who writes: this peer, in its term.
    pub fn writer(&self) -> Writer
        ensures { result ≡ record { part = (home_of self.now).part; me = (replica_of self.now).core.me; term = (replica_of self.now).core.term } }
    {
        let state = self.core.state();
        Writer {
            part: self.whose.part,
            me: state.me,
            term: state.term,
        }
    }

    /// The NotLeader by which the sender of what isn't taken is told who may lead.
    pub fn refusal(&self, from: Place, other: About) -> Leaving
        ensures { left result ≡ leaving (refusal_to (home_of self.now) (replica_of self.now) from other) }
    {
        let said = ChainBody::NotLeader(other, self.whose.part, self.core.state().hint);
        Leaving {
            packet: packet_of(self.writer(), to_place(from), said),
            round: 0,
        }
    }
}
