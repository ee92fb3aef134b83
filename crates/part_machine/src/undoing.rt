//! Batches that are done again, and batches that take others back.
ghost use Rattle.std.specs.Prelude.{◌≡◌, IfOk, List, Some, None};
ghost use Rattle.std.specs.FinMap.{get};
ghost use Rattle.part_machine.specs.Undone.{giving, backs};

use kv_part::{Batch, KeyStore, Write};
use lists::{Bytes, NoMemory};
use std::alloc::Global;

fn copied_write(alloc: Global, write: &Write) -> Result<Write, NoMemory>
    ensures { IfOk result (λ copy. copy ≡ write.now) }
{
    match write {
        Write::Put(key, value) => {
            let key = key.copy(alloc)?;
            Ok(Write::Put(key, value.copy(alloc)?))
        }
        Write::Remove(key) => Ok(Write::Remove(key.copy(alloc)?)),
    }
}

/// The same writes. Refused for want of memory alone.
pub(crate) fn copied_batch(alloc: Global, batch: &Batch) -> Result<Batch, NoMemory>
    ensures { IfOk result (λ copy. copy ≡ batch.now) }
{
    let mut made = Batch::new(alloc);
    for write in batch.as_slice() {
        made.push(copied_write(alloc, write)?)?;
    }
    Ok(made)
}

// The write that gives the key what the store has there now.
fn write_back<S: KeyStore>(alloc: Global, store: &S, key: &[u8]) -> Result<Write, NoMemory>
    ensures { IfOk result (λ write. write ≡ giving key.now (get (S.meaning store.now) key.now)) }
{
    match store.get(key) {
        None => Ok(Write::Remove(Bytes::from_slice(alloc, key)?)),
        Some(value) => {
            let key = Bytes::from_slice(alloc, key)?;
            Ok(Write::Put(key, Bytes::from_slice(alloc, value)?))
        }
    }
}

/// The writes that take a batch back: each key gets what it has now. Refused for want of memory alone.
pub(crate) fn batch_back<S: KeyStore>(
    alloc: Global,
    store: &S,
    batch: &Batch,
) -> Result<Batch, NoMemory>
    ensures { IfOk result (λ back. back ≡ backs (S.meaning store.now) batch.now) }
{
    let mut made = Batch::new(alloc);
    for write in batch.as_slice() {
        made.push(write_back(alloc, store, write.key())?)?;
    }
    Ok(made)
}
