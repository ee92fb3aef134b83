//! Packets as their bytes: one of each kind, and damage at each field of three of them.
use crate::hex::bytes_of;
use chain_leader::{About, ChainBody};
use graph_model::Answer;
use lists::{Bytes, NoMemory};
use packet_codec::{Kind, PacketRefused, read_packet, write_packet};
use raft_log::RaftMsg;
use replica_model::{Body, Packet, Place, To};
use std::alloc::Global;
use std::test::Fail;

/// What is looked at of a packet: its kind; who sends it and to whom; its term or number; one more of its numbers.
type Summary = (u8, (u32, u32), (u32, u32), u64, u64);

/// Client 1 asks part 2 for its call 7: 1 -> 2 is to have the row (90).
const REQUEST: &[u8] = b"01 00 00000001 02 00000002 00000000 0000000000000007 \
    01 00000001 0000000000000007 00 01 \
    00 0000000000000001 00000001 0000000000000000 00 0000000000000002 01 0001 01 000000000000005a";

/// Peer 3 of part 2 doesn't lead, and peer 1 may.
const NOT_LEADER: &[u8] =
    b"03 01 00000002 00000003 00 00000001 00 0000000000000007 00000002 00000001";

/// A no-op and a payload of one byte, behind index 1.
const APPEND: &[u8] = b"04 01 00000001 00000001 01 00000001 00000002 \
    0000000000000002 0000000000000001 0000000000000001 0000000000000001 0000000000000003 00000002 \
    0000000000000002 00000001 00 0000000000000002 00000002 02ff";

/// Peer 1 of part 1 asks peer 2 to begin an election.
const NOW: &[u8] = b"08 01 00000001 00000001 01 00000001 00000002 0000000000000002";

/// Packets, and what they are.
const PACKETS: [(&[u8], Summary); 16] = [
    (REQUEST, (1, (1, 0), (2, 0), 7, 1)),
    (
        b"02 01 00000002 00000001 00 00000001 0000000000000007 05 00000003 0000000000000004",
        (2, (2, 1), (1, 0), 7, 5),
    ),
    (
        b"02 01 00000002 00000001 00 00000001 0000000000000007 06 00000001 \
        01 01 00 0000000000000001 00000001 0000000000000000 00 0000000000000002 0000",
        (2, (2, 1), (1, 0), 7, 6),
    ),
    (NOT_LEADER, (3, (2, 3), (1, 0), 7, 1)),
    (APPEND, (4, (1, 1), (1, 2), 2, 2)),
    (
        b"05 01 00000001 00000002 01 00000001 00000001 0000000000000002 01 0000000000000003 0000000000000004",
        (5, (1, 2), (1, 1), 2, 3),
    ),
    (
        b"06 01 00000001 00000001 01 00000001 00000002 0000000000000002 0000000000000003 0000000000000001",
        (6, (1, 1), (1, 2), 2, 3),
    ),
    (
        b"07 01 00000001 00000002 01 00000001 00000001 0000000000000002 01",
        (7, (1, 2), (1, 1), 2, 1),
    ),
    (NOW, (8, (1, 1), (1, 2), 2, 0)),
    (
        b"09 01 00000001 00000001 02 00000002 00000005 0000000000000002 0000000000000009 02 \
        010161 00000001 0000000000000000 010162 01 0000 010161 00000001 0000000000000000 010163 00",
        (9, (1, 1), (2, 5), 2, 9),
    ),
    (
        b"0a 01 00000002 00000001 01 00000001 00000001 0000000000000002 0000000000000009",
        (10, (2, 1), (1, 1), 2, 9),
    ),
    (
        b"0b 01 00000002 00000001 01 00000001 00000001 0000000000000002 0000000000000009 0000000000000003",
        (11, (2, 1), (1, 1), 2, 3),
    ),
    (
        b"0c 01 00000001 00000001 02 00000002 00000000 0000000000000002 0000000000000009 01 \
        010161 00000001 0000000000000000 010162",
        (12, (1, 1), (2, 0), 2, 9),
    ),
    (
        b"0d 01 00000002 00000001 01 00000001 00000001 0000000000000002 0000000000000009 01",
        (13, (2, 1), (1, 1), 2, 9),
    ),
    (
        b"0e 01 00000001 00000001 01 00000001 00000001 0000000000000002 00",
        (14, (1, 1), (1, 1), 2, 0),
    ),
    (
        b"0e 01 00000001 00000001 01 00000001 00000001 0000000000000002 01 0000000000000009",
        (14, (1, 1), (1, 1), 2, 9),
    ),
];

fn sender(from: Place) -> (u32, u32) {
    match from {
        Place::Client(client) => (client, 0),
        Place::Peer(part, peer) => (part, peer),
    }
}

fn receiver(to: To) -> (u32, u32) {
    match to {
        To::Client(client) => (client, 0),
        To::Peer(part, peer) => (part, peer),
        To::Part(part, count) => (part, count),
    }
}

fn of_message(message: &RaftMsg) -> (u64, u64) {
    match message {
        RaftMsg::Append(term, _, _, _, entries) => (*term, entries.len() as u64),
        RaftMsg::Appended(term, _, index, _) => (*term, *index),
        RaftMsg::Vote(term, last) => (*term, last.index),
        RaftMsg::Voted(term, granted) => (*term, *granted as u64),
        RaftMsg::TimeoutNow(term) => (*term, 0),
    }
}

fn of_answer(answer: &Answer) -> u64 {
    match answer {
        Answer::Conflict(_) => 5,
        Answer::Shown(_) => 6,
        _ => 0,
    }
}

fn of_said(said: &ChainBody) -> (u64, u64) {
    match said {
        ChainBody::Request(number, _) => (*number, 1),
        ChainBody::Answer(number, answer) => (*number, of_answer(answer)),
        ChainBody::NotLeader(About::Call(number), _, hint) => (*number, *hint as u64),
        ChainBody::NotLeader(About::Chain(v), _, hint) => (*v, *hint as u64),
        ChainBody::Remote(term, v, _) => (*term, *v),
        ChainBody::Done(term, v) => (*term, *v),
        ChainBody::Stale(term, _, kept) => (*term, *kept),
        ChainBody::Fence(term, v, _) => (*term, *v),
        ChainBody::Fenced(term, v, _) => (*term, *v),
        ChainBody::Resume(term, None) => (*term, 0),
        ChainBody::Resume(term, Some(v)) => (*term, *v),
    }
}

fn summary(packet: &Packet) -> Summary {
    let (first, second) = match &packet.body {
        Body::Raft(message) => of_message(message),
        Body::Chain(said) => of_said(said),
    };
    let kind = Kind::of_body(&packet.body).number();
    (
        kind,
        sender(packet.from),
        receiver(packet.to),
        first,
        second,
    )
}

/// What the bytes are read as, or the place at which they are refused.
fn read(alloc: Global, bytes: &[u8]) -> Result<Result<Summary, u64>, NoMemory> {
    match read_packet(alloc, bytes) {
        Ok(packet) => Ok(Ok(summary(&packet))),
        Err(PacketRefused::BadPacket(at)) => Ok(Err(at)),
        Err(PacketRefused::NoMemory) => Err(NoMemory),
    }
}

#[test]
fn each_packet(rt: HostRuntime) -> Result<(), Fail> {
    let alloc = rt.alloc();
    for (digits, is) in PACKETS {
        let bytes = bytes_of(alloc, digits)?;
        assert!(rt; read(alloc, bytes.as_slice())? == Ok(is), "kind {}", is.0);
    }
    Ok(())
}

/// A place in REQUEST, the byte that is put there, and the place of the field that doesn't fit then: the kind, who sends, to
/// whom, the number, the entry's kind, client and number, its flag, its count, an id, a type, a half, a value's kind.
const IN_REQUEST: [(usize, u8, u64); 19] = [
    (0, 0, 0),
    (0, 15, 0),
    (1, 2, 1),
    (5, 0, 2),
    (5, 65, 2),
    (5, 2, 24),
    (6, 3, 6),
    (10, 65, 7),
    (22, 8, 28),
    (23, 2, 23),
    (27, 2, 24),
    (35, 8, 28),
    (36, 2, 36),
    (37, 0, 37),
    (38, 2, 38),
    (50, 0, 47),
    (59, 2, 59),
    (68, 2, 68),
    (71, 4, 71),
];

/// The same in NOT_LEADER: the kind of a Done, whose fields end earlier; who sends, to whom, what it is about, the part.
const IN_NOT_LEADER: [(usize, u8, u64); 7] = [
    (0, 10, 31),
    (1, 2, 1),
    (5, 65, 2),
    (10, 3, 10),
    (14, 65, 11),
    (15, 2, 15),
    (27, 0, 24),
];

/// The same in APPEND: the count of entries, and 64 of them; an item's length, its kind, and its fields.
const IN_APPEND: [(usize, u8, u64); 6] = [
    (62, 65, 59),
    (62, 64, 90),
    (74, 9, 76),
    (74, 200, 75),
    (75, 3, 75),
    (88, 1, 89),
];

/// Whether the bytes with this one in them are refused at this place.
fn is_refused(alloc: Global, digits: &[u8], damage: (usize, u8, u64)) -> Result<bool, NoMemory> {
    let mut bytes = Vec::from_slice(alloc, bytes_of(alloc, digits)?.as_slice())?;
    if damage.0 < bytes.len() {
        bytes[damage.0] = damage.1;
    }
    let found = read(alloc, bytes.as_slice())?;
    Ok(found == Err(damage.2))
}

#[test]
fn damaged_requests(rt: HostRuntime) -> Result<(), Fail> {
    let alloc = rt.alloc();
    for damage in IN_REQUEST {
        assert!(rt; is_refused(alloc, REQUEST, damage)?, "byte {}", damage.0);
    }
    Ok(())
}

#[test]
fn damaged_packets(rt: HostRuntime) -> Result<(), Fail> {
    let alloc = rt.alloc();
    for damage in IN_NOT_LEADER {
        assert!(rt; is_refused(alloc, NOT_LEADER, damage)?, "byte {}", damage.0);
    }
    for damage in IN_APPEND {
        assert!(rt; is_refused(alloc, APPEND, damage)?, "byte {}", damage.0);
    }
    Ok(())
}

/// Peer 1 of part 1 asks for what client 1 may ask: the client of its entry doesn't fit.
const FROM_PEER: &[u8] = b"01 01 00000001 00000001 02 00000002 00000000 0000000000000007 \
    09 00000001 0000000000000007 02";

/// Bytes, and the place at which they are refused: none at all; a peer's request; a TimeoutNow that is cut short, and one
/// with a byte behind it.
const REFUSED: [(&[u8], u64); 4] = [
    (b"", 0),
    (FROM_PEER, 28),
    (
        b"08 01 00000001 00000001 01 00000001 00000002 00000000000000",
        19,
    ),
    (
        b"08 01 00000001 00000001 01 00000001 00000002 0000000000000002 00",
        27,
    ),
];

#[test]
fn no_packets(rt: HostRuntime) -> Result<(), Fail> {
    let alloc = rt.alloc();
    for (digits, place) in REFUSED {
        let bytes = bytes_of(alloc, digits)?;
        assert!(rt; read(alloc, bytes.as_slice())? == Err(place), "at {place}");
    }
    Ok(())
}

/// The bytes of NOW, as they are written.
fn written_now(alloc: Global) -> Result<Bytes, NoMemory> {
    let now = Packet {
        from: Place::Peer(1, 1),
        to: To::Peer(1, 2),
        body: Body::Raft(RaftMsg::TimeoutNow(2)),
    };
    write_packet(alloc, &now)
}

#[test]
fn a_packet_is_written(rt: HostRuntime) -> Result<(), Fail> {
    let alloc = rt.alloc();
    let written = written_now(alloc)?;
    let digits = bytes_of(alloc, NOW)?;
    assert_eq!(rt; written.as_slice(), digits.as_slice());
    Ok(())
}
