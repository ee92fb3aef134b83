//! The fold of a file's records.
ghost use Rattle.std.specs.Prelude.{◌≡◌, ◌<◌, ◌^◌, true, IfOk};
ghost use Rattle.replica_file.specs.Grammar.{all_may};
ghost use Rattle.replica_file.specs.Folded.{first_gate, folded};
ghost use Rattle.replica_file.specs.Seen.{last_gate, Leaves};

use crate::durable::Durable;
use crate::payloads::Payloads;
use crate::reading::read_record;
use crate::refused::FoldRefused;
use byte_fields::ReadRefused;
use std::alloc::Global;
use wal_disk::Bodies;

// The place of the first record's gate.
const FIRST_GATE: u64 = 4;

// How many bytes a gate and a length take.
const BEFORE_BODY: u64 = 5;

/// What the bodies of a replica's file leave: the fold of their records. Refused as `BadFile` exactly where a body is no record,
/// or has a payload that may not stand there, at the place in the file of the first field that doesn't fit, or for want of memory. The last gate has
/// a place.
pub fn folded<P: Payloads>(
    alloc: Global,
    payloads: &P,
    bodies: &Bodies,
) -> Result<Durable, FoldRefused>
    requires { last_gate first_gate bodies.now < 2 ^ 64 }
    ensures leaves { Leaves result (folded (P.allowed payloads.now) bodies.now) }
    // Each entry of the log may stand there.
    ensures own { IfOk result (λ left. all_may (P.allowed payloads.now) left.log.0 ≡ true) }
{
    let mut left = Durable::blank(alloc);
    let mut gate = FIRST_GATE;
    for body in bodies.as_slice() {
        let record = match read_record(alloc, body.as_slice(), payloads) {
            Ok(record) => record,
            Err(ReadRefused::Misfit(misfit)) => {
                let place = body.len().saturating_sub(misfit.left) as u64;
                return Err(FoldRefused::BadFile(gate + BEFORE_BODY + place));
            }
            Err(ReadRefused::NoMemory) => return Err(FoldRefused::NoMemory),
        };
        left.keep(record)?;
        gate = gate + BEFORE_BODY + body.len() as u64;
    }
    Ok(left)
}
