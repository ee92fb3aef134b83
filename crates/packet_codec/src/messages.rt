//! Messages of a part's group.
ghost use Rattle.std.specs.Prelude.{◌≡◌, ◌++◌, OnOk};
ghost use Rattle.byte_fields.specs.Reading.{Reads, Gives};
ghost use Rattle.replica_model.specs.declared.packet.Place.{Place};
ghost use Rattle.packet_codec.specs.declared.kind.Kind.TheVariants as kinds;
ghost use Rattle.packet_codec.specs.Spelling.{mark, message};
ghost use Rattle.packet_codec.specs.Fits.{HasSpellingMessage, FitsMark, FitsMessage};
ghost use Rattle.packet_codec.specs.Reading.{mark_at, few_at, few_entries_at, body_at};

use byte_fields::{Misfit, ReadRefused, Writer, read_flag, read_u32, read_u64};
use lists::NoMemory;
use raft_log::{Entries, Mark, RaftMsg};
use replica_model::Body;
use std::alloc::Global;
use wal_frames::{put_entries, read_counted};

/// The greatest number of entries in an Append.
const MOST_ENTRIES: u32 = 64;

#[tactic(auto, unfolding(crate::specs::Reading::mark_at, byte_fields::specs::Reading::made_at, byte_fields::specs::Reading::both_at))]
fn read_mark(bytes: &[u8]) -> Result<(Mark, &[u8]), Misfit>
    ensures { Reads (λ x. (x.0, x.1.now)) result (mark_at bytes.now) }
{
    let (index, rest) = read_u64(bytes)?;
    let (term, rest) = read_u64(rest)?;
    Ok((Mark { index, term }, rest))
}

// A count of entries, at most 64.
#[tactic(auto, unfolding(crate::specs::Reading::few_at, byte_fields::specs::Reading::such_at))]
fn read_few(bytes: &[u8]) -> Result<(u32, &[u8]), Misfit>
    ensures { Reads (λ x. (x.0, x.1.now)) result (few_at bytes.now) }
{
    let (count, rest) = read_u32(bytes)?;
    if MOST_ENTRIES < count {
        return Err(Misfit::at(bytes));
    }
    Ok((count, rest))
}

#[tactic(auto, unfolding(crate::specs::Reading::few_entries_at, byte_fields::specs::Reading::counted_at))]
fn read_few_entries(alloc: Global, bytes: &[u8]) -> Result<(Entries, &[u8]), ReadRefused>
    ensures { Gives (λ x. (x.0, x.1.now)) result (few_entries_at bytes.now) }
{
    let (count, rest) = read_few(bytes)?;
    read_counted(alloc, rest, count)
}

// The fields of an Append.
#[tactic(auto, unfolding(crate::specs::Reading::body_at, byte_fields::specs::Reading::made_at, byte_fields::specs::Reading::both_at))]
pub(crate) fn read_append(alloc: Global, bytes: &[u8]) -> Result<(Body, &[u8]), ReadRefused>
    ensures { (from : Place) → Gives (λ x. (x.0, x.1.now)) result (body_at from kinds.Append bytes.now) }
{
    let (term, rest) = read_u64(bytes)?;
    let (before, rest) = read_mark(rest)?;
    let (commit, rest) = read_u64(rest)?;
    let (round, rest) = read_u64(rest)?;
    let (entries, rest) = read_few_entries(alloc, rest)?;
    let message = RaftMsg::Append(term, before, commit, round, entries);
    Ok((Body::Raft(message), rest))
}

// The fields of an Appended.
#[tactic(auto, unfolding(crate::specs::Reading::body_at, byte_fields::specs::Reading::made_at, byte_fields::specs::Reading::both_at))]
pub(crate) fn read_appended(bytes: &[u8]) -> Result<(Body, &[u8]), ReadRefused>
    ensures { (from : Place) → Gives (λ x. (x.0, x.1.now)) result (body_at from kinds.Appended bytes.now) }
{
    let (term, rest) = read_u64(bytes)?;
    let (ok, rest) = read_flag(rest)?;
    let (index, rest) = read_u64(rest)?;
    let (round, rest) = read_u64(rest)?;
    let message = RaftMsg::Appended(term, ok, index, round);
    Ok((Body::Raft(message), rest))
}

// The fields of a Vote.
#[tactic(auto, unfolding(crate::specs::Reading::body_at, byte_fields::specs::Reading::made_at, byte_fields::specs::Reading::both_at))]
pub(crate) fn read_vote(bytes: &[u8]) -> Result<(Body, &[u8]), ReadRefused>
    ensures { (from : Place) → Gives (λ x. (x.0, x.1.now)) result (body_at from kinds.Vote bytes.now) }
{
    let (term, rest) = read_u64(bytes)?;
    let (last, rest) = read_mark(rest)?;
    Ok((Body::Raft(RaftMsg::Vote(term, last)), rest))
}

// The fields of a Voted.
#[tactic(auto, unfolding(crate::specs::Reading::body_at, byte_fields::specs::Reading::made_at, byte_fields::specs::Reading::both_at))]
pub(crate) fn read_voted(bytes: &[u8]) -> Result<(Body, &[u8]), ReadRefused>
    ensures { (from : Place) → Gives (λ x. (x.0, x.1.now)) result (body_at from kinds.Voted bytes.now) }
{
    let (term, rest) = read_u64(bytes)?;
    let (granted, rest) = read_flag(rest)?;
    Ok((Body::Raft(RaftMsg::Voted(term, granted)), rest))
}

// The fields of a TimeoutNow.
#[tactic(auto, unfolding(crate::specs::Reading::body_at, byte_fields::specs::Reading::made_at, byte_fields::specs::Reading::both_at))]
pub(crate) fn read_timeout_now(bytes: &[u8]) -> Result<(Body, &[u8]), ReadRefused>
    ensures { (from : Place) → Gives (λ x. (x.0, x.1.now)) result (body_at from kinds.TimeoutNow bytes.now) }
{
    let (term, rest) = read_u64(bytes)?;
    Ok((Body::Raft(RaftMsg::TimeoutNow(term)), rest))
}

fn put_mark(out: &mut Writer, made: Mark) -> Result<(), NoMemory>
    ensures ok { OnOk result (out.new ≡ out.old ++ mark made) }
    ensures fits { OnOk result (FitsMark made) }
{
    out.put_u64(made.index)?;
    out.put_u64(made.term)
}

// Puts the fields of a message.
pub(crate) fn put_message(out: &mut Writer, made: &RaftMsg) -> Result<(), NoMemory>
    requires { HasSpellingMessage made.now }
    ensures ok { OnOk result (out.new ≡ out.old ++ message made.now) }
    ensures fits { OnOk result (FitsMessage made.now) }
{
    match made {
        RaftMsg::Append(term, before, commit, round, entries) => {
            out.put_u64(*term)?;
            put_mark(out, *before)?;
            out.put_u64(*commit)?;
            out.put_u64(*round)?;
            put_entries(out, entries)
        }
        RaftMsg::Appended(term, ok, index, round) => {
            out.put_u64(*term)?;
            out.put_flag(*ok)?;
            out.put_u64(*index)?;
            out.put_u64(*round)
        }
        RaftMsg::Vote(term, last) => {
            out.put_u64(*term)?;
            put_mark(out, *last)
        }
        RaftMsg::Voted(term, granted) => {
            out.put_u64(*term)?;
            out.put_flag(*granted)
        }
        RaftMsg::TimeoutNow(term) => out.put_u64(*term),
    }
}
