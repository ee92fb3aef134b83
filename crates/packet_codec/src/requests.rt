//! What clients ask, and what they are told.
ghost use Rattle.std.specs.Prelude.{◌≡◌, ◌==◌, ◌++◌, OnOk};
ghost use Rattle.byte_fields.specs.Fields.{number};
ghost use Rattle.byte_fields.specs.Reading.{Reads, Gives, byte_at, number_at, such_at};
ghost use Rattle.replica_model.specs.declared.packet.Place.{Place};
ghost use Rattle.packet_codec.specs.declared.kind.Kind.TheVariants as kinds;
ghost use Rattle.packet_codec.specs.Spelling.{about};
ghost use Rattle.packet_codec.specs.Fits.{FitsAbout, is_sender};
ghost use Rattle.packet_codec.specs.Reading.{about_at, is_asked_kind, asked_front_at, asked_at, request_at, body_at};

use crate::answers::read_answer;
use crate::ends::read_part;
use crate::tags::{ABOUT_CALL, ABOUT_CHAIN, ASKED_PRIME, ASKED_READ, ASKED_VERTEX};
use byte_fields::{Misfit, ReadRefused, Writer, read_u32, read_u64};
use chain_leader::{About, ChainBody};
use graph_bytes::IdForm;
use lists::NoMemory;
use part_keys::{PartEntry, read_entry_front};
use replica_model::{Body, Place};
use std::alloc::Global;

// Whether the client is the one that sends.
fn is_sender(from: Place, client: u32) -> bool
    ensures { result ≡ is_sender from client }
{
    match from {
        Place::Client(id) => client == id,
        Place::Peer(_, _) => false,
    }
}

// The kind of an entry that is asked for.
#[tactic(auto, unfolding(byte_fields::specs::Reading::such_at, byte_fields::specs::Reading::byte_at))]
fn read_asked_kind(bytes: &[u8]) -> Result<(u8, &[u8]), Misfit>
    ensures { Reads (λ x. (x.0, x.1.now)) result (such_at is_asked_kind byte_at bytes.now) }
{
    match bytes {
        [ASKED_PRIME, rest @ ..] => Ok((ASKED_PRIME, rest)),
        [ASKED_VERTEX, rest @ ..] => Ok((ASKED_VERTEX, rest)),
        [ASKED_READ, rest @ ..] => Ok((ASKED_READ, rest)),
        _ => Err(Misfit::at(bytes)),
    }
}

// The client that sends.
#[tactic(auto, unfolding(byte_fields::specs::Reading::such_at))]
fn read_sender(bytes: &[u8], from: Place) -> Result<(u32, &[u8]), Misfit>
    ensures { Reads (λ x. (x.0, x.1.now)) result (such_at (is_sender from) (number_at 4) bytes.now) }
{
    let (client, rest) = read_u32(bytes)?;
    if !is_sender(from, client) {
        return Err(Misfit::at(bytes));
    }
    Ok((client, rest))
}

// The packet's number.
#[tactic(auto, unfolding(byte_fields::specs::Reading::such_at))]
fn read_same_number(bytes: &[u8], number: u64) -> Result<(u64, &[u8]), Misfit>
    ensures { Reads (λ x. (x.0, x.1.now)) result (such_at (λ m. m == number) (number_at 8) bytes.now) }
{
    let (found, rest) = read_u64(bytes)?;
    if found != number {
        return Err(Misfit::at(bytes));
    }
    Ok((found, rest))
}

// What an entry that is asked for begins with: its kind, the client that sends it, the packet's number.
#[tactic(auto, unfolding(crate::specs::Reading::asked_front_at, byte_fields::specs::Reading::both_at))]
fn read_asked_front(
    bytes: &[u8],
    from: Place,
    number: u64,
) -> Result<(((u8, u32), u64), &[u8]), Misfit>
    ensures { Reads (λ x. (x.0, x.1.now)) result (asked_front_at from number bytes.now) }
{
    let (kind, rest) = read_asked_kind(bytes)?;
    let (client, rest) = read_sender(rest, from)?;
    let (found, rest) = read_same_number(rest, number)?;
    Ok((((kind, client), found), rest))
}

// The entry that the sender asks for by this number.
#[tactic(auto, unfolding(crate::specs::Reading::asked_at))]
fn read_asked(
    alloc: Global,
    bytes: &[u8],
    from: Place,
    number: u64,
) -> Result<(PartEntry, &[u8]), ReadRefused>
    ensures { Gives (λ x. (x.0, x.1.now)) result (asked_at from number bytes.now) }
{
    let _front = read_asked_front(bytes, from, number)?;
    read_entry_front(alloc, bytes, IdForm::Tagged)
}

// The fields of a Request.
#[tactic(auto, unfolding(crate::specs::Reading::body_at, crate::specs::Reading::request_at, byte_fields::specs::Reading::counted_at, byte_fields::specs::Reading::made_at))]
pub(crate) fn read_request(
    alloc: Global,
    bytes: &[u8],
    from: Place,
) -> Result<(Body, &[u8]), ReadRefused>
    ensures { Gives (λ x. (x.0, x.1.now)) result (body_at from kinds.Request bytes.now) }
{
    let (number, rest) = read_u64(bytes)?;
    let (made, rest) = match read_asked(alloc, rest, from, number) {
        Ok(found) => found,
        Err(refused) => return Err(refused),
    };
    Ok((Body::Chain(ChainBody::Request(number, made)), rest))
}

// The fields of an Answer.
#[tactic(auto, unfolding(crate::specs::Reading::body_at, byte_fields::specs::Reading::made_at, byte_fields::specs::Reading::both_at))]
pub(crate) fn read_answered(alloc: Global, bytes: &[u8]) -> Result<(Body, &[u8]), ReadRefused>
    ensures { (from : Place) → Gives (λ x. (x.0, x.1.now)) result (body_at from kinds.Answer bytes.now) }
{
    let (number, rest) = read_u64(bytes)?;
    let (given, rest) = match read_answer(alloc, rest) {
        Ok(found) => found,
        Err(refused) => return Err(refused),
    };
    Ok((Body::Chain(ChainBody::Answer(number, given)), rest))
}

#[tactic(auto, unfolding(crate::specs::Reading::about_at, byte_fields::specs::Reading::byte_at, byte_fields::specs::Reading::made_at))]
fn read_about(bytes: &[u8]) -> Result<(About, &[u8]), Misfit>
    ensures { Reads (λ x. (x.0, x.1.now)) result (about_at bytes.now) }
{
    match bytes {
        [ABOUT_CALL, rest @ ..] => {
            let (number, rest) = read_u64(rest)?;
            Ok((About::Call(number), rest))
        }
        [ABOUT_CHAIN, rest @ ..] => {
            let (v, rest) = read_u64(rest)?;
            Ok((About::Chain(v), rest))
        }
        _ => Err(Misfit::at(bytes)),
    }
}

// The fields of a NotLeader.
#[tactic(auto, unfolding(crate::specs::Reading::body_at, byte_fields::specs::Reading::made_at, byte_fields::specs::Reading::both_at))]
pub(crate) fn read_not_leader(bytes: &[u8]) -> Result<(Body, &[u8]), ReadRefused>
    ensures { (from : Place) → Gives (λ x. (x.0, x.1.now)) result (body_at from kinds.NotLeader bytes.now) }
{
    let (about, rest) = read_about(bytes)?;
    let ((part, hint), rest) = read_part(rest)?;
    let said = ChainBody::NotLeader(about, part, hint);
    Ok((Body::Chain(said), rest))
}

// Puts what a NotLeader is about.
pub(crate) fn put_about(out: &mut Writer, of: About) -> Result<(), NoMemory>
    ensures ok { OnOk result (out.new ≡ out.old ++ about of) }
    ensures fits { OnOk result (FitsAbout of) }
{
    match of {
        About::Call(number) => {
            out.put_byte(ABOUT_CALL)?;
            out.put_u64(number)
        }
        About::Chain(v) => {
            out.put_byte(ABOUT_CHAIN)?;
            out.put_u64(v)
        }
    }
}
