//! The call that is open, and calls that are ready to begin.
ghost use Rattle.std.specs.Prelude.{◌≡◌};
ghost use Rattle.replica_model.specs.Letters as letters;
ghost use Rattle.statement_run.specs.Caller as caller;
ghost use Rattle.statement_run.specs.Named.{named, packet_named};

use crate::effects::Invoked;
use chain_leader::{ChainBody, entry_of, part_of_op};
use graph_model::{Answer, CallId, Op};
use lists::NoMemory;
use part_keys::PartEntry;
use replica_model::{Body, Packet, Place, To};
use std::alloc::Global;

/// The call that is open: by how many parts it is routed, how many Rounds it had, and the peer that the last NotLeader since the
/// last send named, 0 where none did.
#[derive(Drop)]
pub struct OpenCall {
    pub(crate) id: CallId,
    pub(crate) op: Op,
    pub(crate) parts: u32,
    pub(crate) count: u32,
    pub(crate) hint: u32,
}

/// A call that is ready to begin, with its Invoke and its Request.
#[derive(Drop)]
pub struct Begun {
    pub(crate) call: OpenCall,
    pub(crate) invoke: Invoked,
    pub(crate) packet: Packet,
}

/// To the peer of the hint, or where there is none to the one of that try.
fn to_part(part: u32, tries: u32, hint: u32) -> To
    ensures { result ≡ letters.to_part part tries hint }
{
    if hint == 0 {
        To::Part(part, tries)
    } else {
        To::Peer(part, hint)
    }
}

impl OpenCall {
    ghost use Rattle.std.specs.Prelude.{◌≡◌, ◌<◌, IfOk};
    ghost use Rattle.statement_run.specs.Caller.{request_of, answers, is_read};
    ghost use Rattle.statement_run.specs.Call.{open_of};

    /// Its Request, by a count of Rounds. Refused for want of memory alone.
    pub(crate) fn request(&self, alloc: Global, count: u32) -> Result<Packet, NoMemory>
        requires { 0 < self.now.parts }
        ensures { IfOk result (λ packet. packet ≡ request_of (record (open_of self.now) { count = count })) }
    {
        let part = part_of_op(self.parts, &self.op);
        let entry = entry_of(alloc, self.id, self.op.copy(alloc)?)?;
        Ok(Packet {
            from: Place::Client(self.id.client),
            to: to_part(part, count, self.hint),
            body: Body::Chain(ChainBody::Request(self.id.number, entry)),
        })
    }

    /// Whether it reads.
    fn reads(&self) -> bool
        ensures { result ≡ is_read self.now.op }
    {
        match &self.op {
            Op::Read(_) => true,
            _ => false,
        }
    }

    /// Whether this is an answer of it: Shown for a read, and not Shown for another call.
    pub(crate) fn is_answered(&self, number: u64, answer: &Answer) -> bool
        ensures { result ≡ answers (open_of self.now) number answer.now }
    {
        if number != self.id.number {
            return false;
        }
        if self.reads() {
            is_shown(answer)
        } else {
            !is_shown(answer)
        }
    }
}

/// Whether the answer shows what was found.
fn is_shown(answer: &Answer) -> bool
    ensures { result ≡ caller.is_shown answer.now }
{
    match answer {
        Answer::Shown(_) => true,
        _ => false,
    }
}

/// The entry of a call, under another name.
fn renamed(entry: PartEntry, id: CallId) -> PartEntry
    ensures { result ≡ named id entry }
{
    match entry {
        PartEntry::Prime(_, list, absent) => PartEntry::Prime(id, list, absent),
        PartEntry::Vertex(_, change) => PartEntry::Vertex(id, change),
        PartEntry::Read(_, query) => PartEntry::Read(id, query),
        other => other,
    }
}

impl Begun {
    ghost use Rattle.std.specs.Prelude.{◌≡◌, ◌<◌, IfOk};
    ghost use Rattle.statement_run.specs.Statement.{Asked};
    ghost use Rattle.statement_run.specs.Call.{Begins, unnamed};

    /// A call, ready to begin. Refused for want of memory alone.
    pub(crate) fn new(alloc: Global, id: CallId, parts: u32, op: Op) -> Result<Begun, NoMemory>
        requires { 0 < parts }
        ensures { IfOk result (λ begun. Begins id (record { parts = parts; op = op }) begun) }
    {
        let invoke = Invoked {
            id,
            op: op.copy(alloc)?,
        };
        let call = OpenCall {
            id,
            op,
            parts,
            count: 0,
            hint: 0,
        };
        let packet = call.request(alloc, 0)?;
        Ok(Begun {
            call,
            invoke,
            packet,
        })
    }

    /// The call under a name.
    #[tactic(auto, using(crate::proofs::Naming::names))]
    pub(crate) fn named(self, id: CallId) -> Begun
        ensures { (asked : Asked) → Begins unnamed asked self → Begins id asked result }
    {
        let Begun {
            mut call,
            mut invoke,
            packet,
        } = self;
        call.id = id;
        invoke.id = id;
        Begun {
            call,
            invoke,
            packet: request_named(packet, id),
        }
    }
}

/// The Request of a call, under another name.
fn request_named(packet: Packet, id: CallId) -> Packet
    ensures { result ≡ packet_named id packet }
{
    let Packet { from, to, body } = packet;
    match body {
        Body::Chain(ChainBody::Request(_, entry)) => Packet {
            from: Place::Client(id.client),
            to,
            body: Body::Chain(ChainBody::Request(id.number, renamed(entry, id))),
        },
        other => Packet {
            from,
            to,
            body: other,
        },
    }
}
