//! What leaders say of chains.
ghost use Rattle.std.specs.Prelude.{◌≡◌, ◌++◌, OnOk};
ghost use Rattle.std.specs.Option.{option_map};
ghost use Rattle.byte_fields.specs.Fields.{number};
ghost use Rattle.byte_fields.specs.Reading.{Reads, Gives};
ghost use Rattle.replica_model.specs.declared.packet.Place.{Place};
ghost use Rattle.packet_codec.specs.declared.kind.Kind.TheVariants as kinds;
ghost use Rattle.packet_codec.specs.Spelling.{behind, said};
ghost use Rattle.packet_codec.specs.Fits.{HasSpellingSaid, FitsChain, FitsBehind, FitsSaid};
ghost use Rattle.packet_codec.specs.Reading.{behind_at, chain_at, body_at};

use crate::answers::put_answer;
use crate::ends::put_part;
use crate::requests::put_about;
use crate::tags::{BEHIND_CHAIN, FROM_START};
use byte_fields::{Misfit, ReadRefused, Writer, read_flag, read_u64};
use chain_leader::ChainBody;
use graph_bytes::{IdForm, put_edges, put_halves, read_edges, read_halves};
use lists::NoMemory;
use part_keys::put_entry;
use replica_model::{Body, Place};
use std::alloc::Global;

// A term, and a chain.
#[tactic(auto, unfolding(crate::specs::Reading::chain_at, byte_fields::specs::Reading::both_at))]
fn read_chain(bytes: &[u8]) -> Result<((u64, u64), &[u8]), Misfit>
    ensures { Reads (λ x. (x.0, x.1.now)) result (chain_at bytes.now) }
{
    let (term, rest) = read_u64(bytes)?;
    let (v, rest) = read_u64(rest)?;
    Ok(((term, v), rest))
}

// Where a Resume goes on.
#[tactic(auto, unfolding(crate::specs::Reading::behind_at, byte_fields::specs::Reading::byte_at, byte_fields::specs::Reading::made_at))]
fn read_behind(bytes: &[u8]) -> Result<(Option<u64>, &[u8]), Misfit>
    ensures { Reads (λ x. (x.0, x.1.now)) result (behind_at bytes.now) }
{
    match bytes {
        [FROM_START, rest @ ..] => Ok((None, rest)),
        [BEHIND_CHAIN, rest @ ..] => {
            let (v, rest) = read_u64(rest)?;
            Ok((Some(v), rest))
        }
        _ => Err(Misfit::at(bytes)),
    }
}

// The fields of a Remote.
#[tactic(auto, unfolding(crate::specs::Reading::body_at, byte_fields::specs::Reading::made_at, byte_fields::specs::Reading::both_at))]
pub(crate) fn read_remote(alloc: Global, bytes: &[u8]) -> Result<(Body, &[u8]), ReadRefused>
    ensures { (from : Place) → Gives (λ x. (x.0, x.1.now)) result (body_at from kinds.Remote bytes.now) }
{
    let ((term, v), rest) = read_chain(bytes)?;
    let (list, rest) = read_halves(alloc, rest, IdForm::Tagged)?;
    Ok((Body::Chain(ChainBody::Remote(term, v, list)), rest))
}

// The fields of a Done.
#[tactic(auto, unfolding(crate::specs::Reading::body_at, byte_fields::specs::Reading::made_at))]
pub(crate) fn read_done(bytes: &[u8]) -> Result<(Body, &[u8]), ReadRefused>
    ensures { (from : Place) → Gives (λ x. (x.0, x.1.now)) result (body_at from kinds.Done bytes.now) }
{
    let ((term, v), rest) = read_chain(bytes)?;
    Ok((Body::Chain(ChainBody::Done(term, v)), rest))
}

// The fields of a Stale.
#[tactic(auto, unfolding(crate::specs::Reading::body_at, byte_fields::specs::Reading::made_at, byte_fields::specs::Reading::both_at))]
pub(crate) fn read_stale(bytes: &[u8]) -> Result<(Body, &[u8]), ReadRefused>
    ensures { (from : Place) → Gives (λ x. (x.0, x.1.now)) result (body_at from kinds.Stale bytes.now) }
{
    let ((term, v), rest) = read_chain(bytes)?;
    let (kept, rest) = read_u64(rest)?;
    Ok((Body::Chain(ChainBody::Stale(term, v, kept)), rest))
}

// The fields of a Fence.
#[tactic(auto, unfolding(crate::specs::Reading::body_at, byte_fields::specs::Reading::made_at, byte_fields::specs::Reading::both_at))]
pub(crate) fn read_fence(alloc: Global, bytes: &[u8]) -> Result<(Body, &[u8]), ReadRefused>
    ensures { (from : Place) → Gives (λ x. (x.0, x.1.now)) result (body_at from kinds.Fence bytes.now) }
{
    let ((term, v), rest) = read_chain(bytes)?;
    let (list, rest) = read_edges(alloc, rest, IdForm::Tagged)?;
    Ok((Body::Chain(ChainBody::Fence(term, v, list)), rest))
}

// The fields of a Fenced.
#[tactic(auto, unfolding(crate::specs::Reading::body_at, byte_fields::specs::Reading::made_at, byte_fields::specs::Reading::both_at))]
pub(crate) fn read_fenced(bytes: &[u8]) -> Result<(Body, &[u8]), ReadRefused>
    ensures { (from : Place) → Gives (λ x. (x.0, x.1.now)) result (body_at from kinds.Fenced bytes.now) }
{
    let ((term, v), rest) = read_chain(bytes)?;
    let (applied, rest) = read_flag(rest)?;
    Ok((Body::Chain(ChainBody::Fenced(term, v, applied)), rest))
}

// The fields of a Resume.
#[tactic(auto, unfolding(crate::specs::Reading::body_at, byte_fields::specs::Reading::made_at, byte_fields::specs::Reading::both_at))]
pub(crate) fn read_resume(bytes: &[u8]) -> Result<(Body, &[u8]), ReadRefused>
    ensures { (from : Place) → Gives (λ x. (x.0, x.1.now)) result (body_at from kinds.Resume bytes.now) }
{
    let (term, rest) = read_u64(bytes)?;
    let (after, rest) = read_behind(rest)?;
    Ok((Body::Chain(ChainBody::Resume(term, after)), rest))
}

// Puts a term, and a chain.
fn put_chain(out: &mut Writer, term: u64, v: u64) -> Result<(), NoMemory>
    ensures ok { OnOk result (out.new ≡ out.old ++ (number 8 term ++ number 8 v)) }
    ensures fits { OnOk result (FitsChain term v) }
{
    out.put_u64(term)?;
    out.put_u64(v)
}

// Puts where a Resume goes on.
fn put_behind(out: &mut Writer, after: Option<u64>) -> Result<(), NoMemory>
    ensures ok { OnOk result (out.new ≡ out.old ++ behind after) }
    ensures fits { OnOk result (FitsBehind after) }
{
    match after {
        None => out.put_byte(FROM_START),
        Some(v) => {
            out.put_byte(BEHIND_CHAIN)?;
            out.put_u64(v)
        }
    }
}

// Puts the fields of what is said of calls and chains.
pub(crate) fn put_said(out: &mut Writer, made: &ChainBody, from: Place) -> Result<(), NoMemory>
    requires { HasSpellingSaid from made.now }
    ensures ok { OnOk result (out.new ≡ out.old ++ said made.now) }
    ensures fits { OnOk result (FitsSaid from made.now) }
{
    match made {
        ChainBody::Request(number, entry) => {
            out.put_u64(*number)?;
            put_entry(out, entry, IdForm::Tagged)
        }
        ChainBody::Answer(number, given) => {
            out.put_u64(*number)?;
            put_answer(out, given)
        }
        ChainBody::NotLeader(about, part, hint) => {
            put_about(out, *about)?;
            put_part(out, *part, *hint)
        }
        ChainBody::Remote(term, v, list) => {
            put_chain(out, *term, *v)?;
            put_halves(out, list, IdForm::Tagged)
        }
        ChainBody::Done(term, v) => put_chain(out, *term, *v),
        ChainBody::Stale(term, v, kept) => {
            put_chain(out, *term, *v)?;
            out.put_u64(*kept)
        }
        ChainBody::Fence(term, v, list) => {
            put_chain(out, *term, *v)?;
            put_edges(out, list, IdForm::Tagged)
        }
        ChainBody::Fenced(term, v, applied) => {
            put_chain(out, *term, *v)?;
            out.put_flag(*applied)
        }
        ChainBody::Resume(term, after) => {
            out.put_u64(*term)?;
            put_behind(out, *after)
        }
    }
}
