//! What is durable of a replica that is created.
ghost use Rattle.std.specs.Prelude.{◌≡◌, true, IfOk, IfSome};
ghost use Rattle.byte_fields.specs.Frames.{IsFrame};
ghost use Rattle.raft_log.specs.Config.{IsConfig};
ghost use Rattle.wal_frames.specs.Spelling.{body, FitsRecord};
ghost use Rattle.replica_file.specs.Grammar.{Allowed, all_may};
ghost use Rattle.replica_file.specs.OnDisk.{first_record, founded};
ghost use Rattle.replica_file.specs.Seen.{durable_of};

use crate::durable::Durable;
use byte_fields::Frame;
use lists::{Listed, NoMemory};
use raft_log::{Config, Entry, Item, RaftLog, Record};
use std::alloc::Global;
use wal_frames::encode;

/// The frame of the record with which a group's first configuration is made durable: at index 1 and term 0. Refused for want of
/// memory alone.
pub(crate) fn first_frame(alloc: Global, first: Config) -> Result<Frame, NoMemory>
    requires { IsConfig first }
    ensures ok { IfOk result (IsFrame (body (first_record first))) }
    ensures fits { IfOk result (λ _. FitsRecord (first_record first)) }
{
    let mut entries = Listed::new(alloc);
    entries.push(Entry {
        term: 0,
        item: Item::Members(first),
    })?;
    encode(
        alloc,
        &Record {
            term: 0,
            vote: 0,
            keep: 0,
            entries,
        },
    )
}

/// What is durable of a replica that is created: a group's first configuration, or nothing. Refused for want of memory alone.
pub fn founded(alloc: Global, first: Option<Config>) -> Result<Durable, NoMemory>
    requires { IfSome first IsConfig }
    ensures state { IfOk result (λ left. durable_of left ≡ founded first) }
    ensures own { (allowed : Allowed) → IfOk result (λ left. all_may allowed left.log.0 ≡ true) }
{
    let mut log = RaftLog::new(alloc);
    if let Some(first) = first {
        log.reserve(1)?;
        log.append(Entry {
            term: 0,
            item: Item::Members(first),
        });
    }
    Ok(Durable {
        term: 0,
        vote: 0,
        log,
    })
}
