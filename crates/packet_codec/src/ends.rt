//! Who sends a packet, and to whom.
ghost use Rattle.std.specs.Prelude.{◌≡◌, ◌++◌, OnOk};
ghost use Rattle.byte_fields.specs.Fields.{number};
ghost use Rattle.byte_fields.specs.Reading.{Reads};
ghost use Rattle.graph_bytes.specs.Fits.{IsSmall};
ghost use Rattle.packet_codec.specs.Spelling.{place, end};
ghost use Rattle.packet_codec.specs.Fits.{HasSpellingPlace, HasSpellingEnd, FitsAt, FitsPlace, FitsEnd};
ghost use Rattle.packet_codec.specs.Reading.{part_at, place_at, end_at};

use crate::tags::{CLIENT_END, PART_END, PEER_END};
use byte_fields::{Misfit, Writer, read_id, read_u32};
use graph_bytes::MOST_SMALL;
use lists::NoMemory;
use replica_model::{Place, To};

// A part, and a number of 4 bytes.
#[tactic(auto, unfolding(crate::specs::Reading::part_at, byte_fields::specs::Reading::both_at))]
pub(crate) fn read_part(bytes: &[u8]) -> Result<((u32, u32), &[u8]), Misfit>
    ensures { Reads (λ x. (x.0, x.1.now)) result (part_at bytes.now) }
{
    let (part, rest) = read_id(bytes, 0, MOST_SMALL)?;
    let (n, rest) = read_u32(rest)?;
    Ok(((part, n), rest))
}

// Who sends.
#[tactic(auto, unfolding(crate::specs::Reading::place_at, byte_fields::specs::Reading::byte_at, byte_fields::specs::Reading::made_at))]
pub(crate) fn read_place(bytes: &[u8]) -> Result<(Place, &[u8]), Misfit>
    ensures { Reads (λ x. (x.0, x.1.now)) result (place_at bytes.now) }
{
    match bytes {
        [CLIENT_END, rest @ ..] => {
            let (sender, rest) = read_id(rest, 0, MOST_SMALL)?;
            Ok((Place::Client(sender), rest))
        }
        [PEER_END, rest @ ..] => {
            let ((part, peer), rest) = read_part(rest)?;
            Ok((Place::Peer(part, peer), rest))
        }
        _ => Err(Misfit::at(bytes)),
    }
}

// To whom.
#[tactic(auto, unfolding(crate::specs::Reading::end_at, byte_fields::specs::Reading::byte_at, byte_fields::specs::Reading::made_at))]
pub(crate) fn read_end(bytes: &[u8]) -> Result<(To, &[u8]), Misfit>
    ensures { Reads (λ x. (x.0, x.1.now)) result (end_at bytes.now) }
{
    match bytes {
        [CLIENT_END, rest @ ..] => {
            let (client, rest) = read_id(rest, 0, MOST_SMALL)?;
            Ok((To::Client(client), rest))
        }
        [PEER_END, rest @ ..] => {
            let ((part, peer), rest) = read_part(rest)?;
            Ok((To::Peer(part, peer), rest))
        }
        [PART_END, rest @ ..] => {
            let ((part, count), rest) = read_part(rest)?;
            Ok((To::Part(part, count), rest))
        }
        _ => Err(Misfit::at(bytes)),
    }
}

// Puts a part, and a number of 4 bytes.
pub(crate) fn put_part(out: &mut Writer, part: u32, n: u32) -> Result<(), NoMemory>
    requires { IsSmall part }
    ensures ok { OnOk result (out.new ≡ out.old ++ (number 4 part ++ number 4 n)) }
    ensures fits { OnOk result (FitsAt part n) }
{
    out.put_u32(part)?;
    out.put_u32(n)
}

// Puts who sends.
pub(crate) fn put_place(out: &mut Writer, from: Place) -> Result<(), NoMemory>
    requires { HasSpellingPlace from }
    ensures ok { OnOk result (out.new ≡ out.old ++ place from) }
    ensures fits { OnOk result (FitsPlace from) }
{
    match from {
        Place::Client(client) => {
            out.put_byte(CLIENT_END)?;
            out.put_u32(client)
        }
        Place::Peer(part, peer) => {
            out.put_byte(PEER_END)?;
            put_part(out, part, peer)
        }
    }
}

// Puts to whom.
pub(crate) fn put_end(out: &mut Writer, to: To) -> Result<(), NoMemory>
    requires { HasSpellingEnd to }
    ensures ok { OnOk result (out.new ≡ out.old ++ end to) }
    ensures fits { OnOk result (FitsEnd to) }
{
    match to {
        To::Client(client) => {
            out.put_byte(CLIENT_END)?;
            out.put_u32(client)
        }
        To::Peer(part, peer) => {
            out.put_byte(PEER_END)?;
            put_part(out, part, peer)
        }
        To::Part(part, count) => {
            out.put_byte(PART_END)?;
            put_part(out, part, count)
        }
    }
}
