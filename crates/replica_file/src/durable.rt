//! What is durable of a replica.
ghost use Rattle.std.specs.Prelude.{◌≡◌, OnOk};
ghost use Rattle.raft_log.specs.Config.{AreEntries};
ghost use Rattle.replica_file.specs.Durable.{kept_by};
ghost use Rattle.replica_file.specs.Folded.{blank};
ghost use Rattle.replica_file.specs.Seen.{durable_of, record_of};

use crate::reading::LogRecord;
use lists::NoMemory;
use raft_log::RaftLog;
use std::alloc::Global;

/// What is durable of a replica: its term, its vote in that term, 0 where it gave none, and its log.
#[derive(Drop)]
pub struct Durable {
    pub term: u64,
    pub vote: u32,
    pub log: RaftLog,
}

impl Durable {
    // Nothing yet. It takes no memory.
    pub(crate) fn blank(alloc: Global) -> Durable
        ensures { durable_of result ≡ blank }
    {
        Durable {
            term: 0,
            vote: 0,
            log: RaftLog::new(alloc),
        }
    }

    // What a record leaves of it. Refused for want of memory alone.
    pub(crate) fn keep(&mut self, made: LogRecord) -> Result<(), NoMemory>
        requires { AreEntries made.entries.items }
        ensures kept { OnOk result (durable_of self.new ≡ kept_by (durable_of self.old) (record_of made)) }
    {
        if made.keep < self.log.len() {
            self.log.cut_from(made.keep + 1);
        }
        self.log.reserve(made.entries.len())?;
        self.log.extend(made.entries);
        self.term = made.term;
        self.vote = made.vote;
        Ok(())
    }
}
