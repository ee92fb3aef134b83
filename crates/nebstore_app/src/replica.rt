//! The one replica of a part.
ghost use Rattle.std.specs.Prelude.{◌≡◌, IfOk};
ghost use Rattle.nebstore_app.specs.Packets.{sent, answer_packet, kept_answer, IsSpareOf};

use crate::packet::{Body, PARTS, Packet, Place};
use first_graph::{Answer, CallId, Half};
use first_part::{Applied, Machine, Outcome, PartEntry, part_of};
use lists::NoMemory;
use std::alloc::Global;
use std::marker::Model;

/// The term of the parts' leaders: each part has one replica, which leads from the start.
const TERM: u64 = 1;

/// The one replica of a part: the part's machine, and the entries that were applied to it, which count as decided.
#[derive(Drop)]
pub(crate) struct Replica {
    machine: Machine,
    decided: Vec<PartEntry>,
}

impl Model for Replica {
    ghost use Rattle.std.specs.Coded.{coded_list};
    ghost use Rattle.nebstore_app.specs.Replica.{Replica, replica_code};
    ghost use Rattle.first_part.specs.contracts.machine.Machine as machines;
    ghost use Rattle.first_part.specs.contracts.entry.PartEntry as entry;

    ghost Value = { Replica };

    ghost coded = { replica_code machines.the_row.coded (coded_list entry.the_row.coded) };

    ghost view = { λ a. record { machine = a.machine; decided = a.decided.items } };
}

impl Replica {
    ghost use Rattle.std.specs.Prelude.{◌≡◌, IfOk, OnOk, OnErr};
    ghost use Rattle.nebstore_app.specs.Packets.{sent};
    ghost use Rattle.nebstore_app.specs.Replica.{fresh, replica_after, answer_to};

    /// A replica to which nothing was applied; without memory.
    pub fn new(alloc: Global) -> Replica
        ensures { result ≡ fresh }
    {
        Replica {
            machine: Machine::new(alloc),
            decided: Vec::new(alloc),
        }
    }

    /// Decides and applies an entry that came from there, as part `part`, and gives the packet that follows from it.
    /// Refused for want of memory alone, and then all is as it was.
    pub fn apply(
        &mut self,
        alloc: Global,
        part: u32,
        from: Place,
        entry: PartEntry,
    ) -> Result<Option<Packet>, NoMemory>
        ensures sent { IfOk result (λ packet. packet ≡ sent part from entry (answer_to self.old entry)) }
        ensures after { OnOk result (self.new ≡ replica_after self.old entry) }
        ensures err { OnErr result (self.new ≡ self.old) }
    {
        self.decided.reserve(1)?;
        let spare = spare_half(alloc, &entry)?;
        let index = self.decided.len() as u64 + 1;
        let answer = self.machine.apply(alloc, index, &entry)?;
        let packet = packet_after(part, from, &entry, answer, spare);
        match self.decided.push(entry) {
            Ok(()) => Ok(packet),
            Err(_) => unreachable!(),
        }
    }
}

/// A copy of the half that a Prime names, for the packet that may follow from it.
fn spare_half(alloc: Global, entry: &PartEntry) -> Result<Half, NoMemory>
    ensures { IfOk result (IsSpareOf entry.now) }
{
    match entry {
        PartEntry::Prime(_id, _edge, half, _absent) => half.copy(alloc),
        _ => Ok(Half::Absent),
    }
}

/// What part `part` sends once it has applied the entry; a chain that began takes the spare half along.
fn packet_after(
    part: u32,
    from: Place,
    entry: &PartEntry,
    answer: Applied,
    spare: Half,
) -> Option<Packet>
    requires { IsSpareOf entry.now spare }
    ensures { result ≡ sent part from entry.now answer }
{
    match (entry, answer) {
        (PartEntry::Prime(_id, edge, _half, _absent), Applied::Begun(v)) => Some(Packet {
            from: Place::Part(part),
            to: Place::Part(part_of(edge.dst, PARTS)),
            body: Body::Remote(TERM, *edge, v, spare),
        }),
        (PartEntry::Prime(id, ..), Applied::Skipped) => Some(answer_packet(
            part,
            *id,
            Answer::Skipped,
        )),
        (PartEntry::Prime(id, ..), Applied::Conflict(other)) => {
            Some(answer_packet(part, *id, Answer::Conflict(other)))
        }
        (PartEntry::Prime(id, ..), Applied::Again(outcome)) => {
            kept_answer(outcome).map(|answer| answer_packet(part, *id, answer))
        }
        (PartEntry::Local(..), Applied::Settled(id)) => Some(answer_packet(part, id, Answer::Fine)),
        (PartEntry::Remote(_i, term, edge, v, _half), Applied::Done) => Some(Packet {
            from: Place::Part(part),
            to: from,
            body: Body::Done(*term, *edge, *v),
        }),
        (PartEntry::Read(id, _query), Applied::Shown(_asked, view)) => {
            Some(answer_packet(part, *id, Answer::Shown(view)))
        }
        _ => None,
    }
}

/// The answer of a call, from a part to its client.
fn answer_packet(part: u32, id: CallId, answer: Answer) -> Packet
    ensures { result ≡ answer_packet part id answer }
{
    Packet {
        from: Place::Part(part),
        to: Place::Client(id.client),
        body: Body::Answer(id.number, answer),
    }
}

/// The answer that was kept of a call, where it has one yet.
fn kept_answer(outcome: Outcome) -> Option<Answer>
    ensures { result ≡ kept_answer outcome }
{
    match outcome {
        Outcome::Open => None,
        Outcome::Fine => Some(Answer::Fine),
        Outcome::Skipped => Some(Answer::Skipped),
        Outcome::Conflict(other) => Some(Answer::Conflict(other)),
    }
}
