//! Writes and cuts that a crash tears.
ghost use Rattle.std.specs.Prelude.{◌≡◌, List, ℕ, length, IfOk, OnOk};
ghost use Rattle.disk_model.specs.Replay.{history, moved, size_of, synced_after};
ghost use Rattle.disk_model.specs.Tears.{torn_by, torn_after};

use crate::call::{Call, Made};
use crate::overwriting::overwrite;
use lists::{Bytes, NoMemory};
use std::alloc::Global;

// Makes the file what the call leaves if these bytes are all that is seen of it.
fn tear(file: &mut Vec<u8>, call: &Call, bytes: &[u8]) -> Result<(), NoMemory>
    ensures { OnOk result (file.new.items ≡ torn_by call.now (size_of call.now) bytes.now file.old.items) }
{
    match *call {
        Call::Write(at, most) => {
            if at as usize > file.len() {
                return Ok(());
            }
            let front = &bytes[..most.min(bytes.len())];
            file.reserve(front.len())?;
            overwrite(file, at as usize, front);
            Ok(())
        }
        Call::Cut(len) => {
            let most = file.len().saturating_sub(len as usize);
            file.truncate(len as usize);
            file.extend_from_slice(&bytes[..most.min(bytes.len())])?;
            Ok(())
        }
        Call::Sync => Ok(()),
    }
}

/// The file that a crash leaves of these calls, by the bytes that were picked. Refused for want of memory alone.
pub(crate) fn torn(
    alloc: Global,
    synced: &[u8],
    calls: &[Made],
    tears: &[Bytes],
) -> Result<Vec<u8>, NoMemory>
    ensures { IfOk result (λ file. (first stored : List ℕ) → moved calls.now ≡ length stored
        → synced.now ≡ synced_after first (history calls.now stored)
        → file.items ≡ torn_after first (history calls.now stored) tears.now) }
{
    let Some((last, older)) = calls.split_last() else {
        return Ok(Vec::from_slice(alloc, synced)?);
    };
    if let Call::Sync = last.call {
        if last.ok {
            return Ok(Vec::from_slice(alloc, synced)?);
        }
        return torn(alloc, synced, older, tears);
    }
    let Some((bytes, rest)) = tears.split_first() else {
        return Ok(Vec::from_slice(alloc, synced)?);
    };
    let mut file = torn(alloc, synced, older, rest)?;
    tear(&mut file, &last.call, bytes.as_slice())?;
    Ok(file)
}
