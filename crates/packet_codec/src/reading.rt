//! Reading packets.
ghost use Rattle.std.specs.Prelude.{◌≡◌, length, IfOk};
ghost use Rattle.byte_fields.specs.Reading.{Reads, Gives, whole, ReadsAll, Answers};
ghost use Rattle.replica_model.specs.declared.packet.Packet.{Packet};
ghost use Rattle.packet_codec.specs.Spelling.{packet};
ghost use Rattle.packet_codec.specs.Fits.{Fits};
ghost use Rattle.packet_codec.specs.Reading.{kind_at, head_at, body_at, packet_at, place};

use crate::chains::{read_done, read_fence, read_fenced, read_remote, read_resume, read_stale};
use crate::ends::{read_end, read_place};
use crate::kind::Kind;
use crate::messages::{read_append, read_appended, read_timeout_now, read_vote, read_voted};
use crate::refused::PacketRefused;
use crate::requests::{read_answered, read_not_leader, read_request};
use byte_fields::{Misfit, ReadRefused, read_byte};
use replica_model::{Body, Packet, Place, To};
use std::alloc::Global;

#[tactic(auto, unfolding(crate::specs::Reading::kind_at))]
fn read_kind(bytes: &[u8]) -> Result<(Kind, &[u8]), Misfit>
    ensures { Reads (λ x. (x.0, x.1.now)) result (kind_at bytes.now) }
{
    let (first, rest) = read_byte(bytes)?;
    match Kind::of(first) {
        Some(kind) => Ok((kind, rest)),
        None => Err(Misfit::at(bytes)),
    }
}

// The kind of a packet, who sends it, and to whom.
#[tactic(auto, unfolding(crate::specs::Reading::head_at, byte_fields::specs::Reading::both_at))]
fn read_head(bytes: &[u8]) -> Result<(((Kind, Place), To), &[u8]), Misfit>
    ensures { Reads (λ x. (x.0, x.1.now)) result (head_at bytes.now) }
{
    let (kind, rest) = read_kind(bytes)?;
    let (from, rest) = read_place(rest)?;
    let (to, rest) = read_end(rest)?;
    Ok((((kind, from), to), rest))
}

// The fields of a packet, by its sender and its kind.
fn read_body(
    alloc: Global,
    bytes: &[u8],
    from: Place,
    kind: Kind,
) -> Result<(Body, &[u8]), ReadRefused>
    ensures { Gives (λ x. (x.0, x.1.now)) result (body_at from kind bytes.now) }
{
    match kind {
        Kind::Request => read_request(alloc, bytes, from),
        Kind::Answer => read_answered(alloc, bytes),
        Kind::NotLeader => read_not_leader(bytes),
        Kind::Append => read_append(alloc, bytes),
        Kind::Appended => read_appended(bytes),
        Kind::Vote => read_vote(bytes),
        Kind::Voted => read_voted(bytes),
        Kind::TimeoutNow => read_timeout_now(bytes),
        Kind::Remote => read_remote(alloc, bytes),
        Kind::Done => read_done(bytes),
        Kind::Stale => read_stale(bytes),
        Kind::Fence => read_fence(alloc, bytes),
        Kind::Fenced => read_fenced(bytes),
        Kind::Resume => read_resume(bytes),
    }
}

#[tactic(auto, unfolding(crate::specs::Reading::packet_at, byte_fields::specs::Reading::counted_at, byte_fields::specs::Reading::made_at))]
fn read_front(alloc: Global, bytes: &[u8]) -> Result<(Packet, &[u8]), ReadRefused>
    ensures { Gives (λ x. (x.0, x.1.now)) result (packet_at bytes.now) }
{
    let (((kind, from), to), rest) = read_head(bytes)?;
    let (body, rest) = match read_body(alloc, rest, from, kind) {
        Ok(found) => found,
        Err(refused) => return Err(refused),
    };
    Ok((Packet { from, to, body }, rest))
}

#[tactic(auto, unfolding(byte_fields::specs::Reading::whole))]
fn read_whole(alloc: Global, bytes: &[u8]) -> Result<Packet, ReadRefused>
    ensures { Gives (λ p. p) result (whole packet_at bytes.now) }
{
    let (found, rest) = match read_front(alloc, bytes) {
        Ok(found) => found,
        Err(refused) => return Err(refused),
    };
    if !rest.is_empty() {
        return Err(ReadRefused::Misfit(Misfit::at(rest)));
    }
    Ok(found)
}

fn answered(alloc: Global, bytes: &[u8]) -> Result<Packet, PacketRefused>
    ensures { ReadsAll place (length bytes.now) result (whole packet_at bytes.now) }
{
    match read_whole(alloc, bytes) {
        Ok(found) => Ok(found),
        Err(ReadRefused::Misfit(misfit)) => {
            Err(PacketRefused::BadPacket((bytes.len() - misfit.left) as u64))
        }
        Err(ReadRefused::NoMemory) => Err(PacketRefused::NoMemory),
    }
}

/// The packet that the bytes spell, all of the bytes. Refused as `BadPacket` exactly where they spell none, at the first field
/// that doesn't fit.
pub fn read_packet(alloc: Global, b: &[u8]) -> Result<Packet, PacketRefused>
    // What is read is spelled so.
    ensures found { IfOk result (λ p. Fits p × (b.now ≡ packet p)) }
    // What is spelled so is read, unless memory runs out.
    ensures only { (p : Packet) → Fits p → b.now ≡ packet p → Answers place p result }
    // At which place it is refused.
    ensures exact { ReadsAll place (length b.now) result (whole packet_at b.now) }
{
    answered(alloc, b)
}
