//! What the parts and the client send each other.
ghost use Rattle.std.specs.Prelude.{◌≡◌, IfOk};
ghost use Rattle.nebstore_app.specs.Packets.{request_of, request};

use first_graph::{Answer, CallId, EdgeId, Half, Op, Query, Vid};
use first_part::{PartEntry, part_of};
use lists::{Listed, NoMemory};
use std::alloc::Global;

/// How many parts there are.
pub(crate) const PARTS: u32 = 2;

/// An end of a packet.
#[derive(Clone, Copy)]
pub enum Place {
    /// A client, by its number.
    Client(u32),
    /// The replica of a part, by the part's number.
    Part(u32),
}

/// What a packet says.
#[derive(Drop)]
pub enum Body {
    /// The client's call of this number asks for this entry.
    Request(u64, PartEntry),
    /// The call of this number is answered so.
    Answer(u64, Answer),
    /// Write this in-half: the leader's term, the edge, the chain's number and the half.
    Remote(u64, EdgeId, u64, Half),
    /// The in-half of the chain of this number has its value: the term, the edge and the number.
    Done(u64, EdgeId, u64),
}

/// A packet.
#[derive(Drop)]
pub struct Packet {
    /// Who sent it.
    pub from: Place,
    /// To whom it goes.
    pub to: Place,
    /// What it says.
    pub body: Body,
}

/// Packets, numbered from 0 in the order in which they were sent.
pub type Packets = Listed<Packet>;

impl Packet {
    ghost use Rattle.std.specs.Prelude.{◌≡◌, IfOk};
    ghost use Rattle.nebstore_app.specs.Packets.{entry_in, answer_in};

    /// The part that the packet is for and the entry that it brings there. Refused for want of memory alone.
    pub(crate) fn entry(&self, alloc: Global) -> Result<Option<(u32, PartEntry)>, NoMemory>
        ensures { IfOk result (λ brought. brought ≡ entry_in self.now) }
    {
        let Place::Part(part) = self.to else {
            return Ok(None);
        };
        match &self.body {
            Body::Request(_number, entry) => Ok(Some((part, entry.copy(alloc)?))),
            Body::Remote(term, edge, v, half) => match self.from {
                Place::Part(source) => {
                    let half = half.copy(alloc)?;
                    Ok(Some((part, PartEntry::Remote(source, *term, *edge, *v, half))))
                }
                Place::Client(_) => Ok(None),
            },
            Body::Done(_term, edge, v) => Ok(Some((part, PartEntry::Local(*edge, *v)))),
            Body::Answer(..) => Ok(None),
        }
    }

    /// The number of the call and the answer that the packet brings. Refused for want of memory alone.
    pub(crate) fn answer(&self, alloc: Global) -> Result<Option<(u64, Answer)>, NoMemory>
        ensures { IfOk result (λ brought. brought ≡ answer_in self.now) }
    {
        match &self.body {
            Body::Answer(number, answer) => Ok(Some((*number, answer.copy(alloc)?))),
            _ => Ok(None),
        }
    }
}

/// The request of a call, where it is served at this stage. Refused for want of memory alone.
pub(crate) fn request_of(alloc: Global, id: CallId, op: &Op) -> Result<Option<Packet>, NoMemory>
    ensures { IfOk result (λ packet. packet ≡ request_of id op.now) }
{
    match op {
        Op::PutEdge(edge, row, false) => {
            let half = Half::Here(row.copy(alloc)?);
            Ok(Some(request(id, &edge.src, PartEntry::Prime(id, *edge, half, false))))
        }
        Op::Read(query) => match query {
            Query::Out(vid, _types) | Query::In(vid, _types) => {
                Ok(Some(request(id, vid, PartEntry::Read(id, query.copy(alloc)?))))
            }
            _ => Ok(None),
        },
        _ => Ok(None),
    }
}

fn request(id: CallId, vid: &Vid, entry: PartEntry) -> Packet
    ensures { result ≡ request id vid.now entry }
{
    Packet {
        from: Place::Client(id.client),
        to: Place::Part(part_of(*vid, PARTS)),
        body: Body::Request(id.number, entry),
    }
}
