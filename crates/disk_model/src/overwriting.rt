//! Bytes written over a place of a file in memory, in reserved room, and calls that are noted.
ghost use Rattle.std.specs.Prelude.{◌≡◌, ◌<◌, ◌≤◌, ◌+◌, ◌-◌, ◌∷◌, ◌++◌, take, length, vec_len, vec_capacity};
ghost use Rattle.disk_model.specs.Disk.{written_over};
ghost use Rattle.disk_model.specs.Replay.{history, moved, size_of};

use crate::call::Made;

/// Writes these bytes over those from `at` on, and past the end.
pub(crate) fn overwrite(file: &mut Vec<u8>, at: usize, from: &[u8])
    requires inside { at ≤ vec_len file.old }
    requires room { vec_len file.old + length from.now ≤ vec_capacity file.old }
    ensures file { file.new.items ≡ written_over at from.now file.old.items }
    ensures room { vec_capacity file.old - vec_len file.old ≤ (vec_capacity file.new - vec_len file.new) + length from.now }
{
    let over = from.len().min(file.len() - at);
    let (front, rest) = from.split_at(over);
    file[at..at + over].copy_from_slice(front);
    match file.extend_from_slice(rest) {
        Ok(()) => {}
        Err(_) => unreachable!(),
    }
}

/// Makes `synced` what `file` is, where the two are the same up to `from`.
pub(crate) fn catch_up(synced: &mut Vec<u8>, file: &[u8], from: usize)
    requires inside { from ≤ length file.now }
    requires same { take from synced.old.items ≡ take from file.now }
    requires room { length file.now ≤ vec_capacity synced.old }
    ensures file { synced.new.items ≡ file.now }
    ensures room { vec_capacity synced.old ≤ vec_capacity synced.new }
{
    synced.truncate(from);
    match synced.extend_from_slice(&file[from..]) {
        Ok(()) => {}
        Err(_) => unreachable!(),
    }
}

/// Notes a call and its bytes behind those that were made before.
pub(crate) fn note(calls: &mut Vec<Made>, stored: &mut Vec<u8>, made: Made, bytes: &[u8])
    requires room { vec_len calls.old < vec_capacity calls.old }
    requires stored_room { vec_len stored.old + length bytes.now ≤ vec_capacity stored.old }
    requires whole { moved calls.old.items ≡ length stored.old.items }
    requires size { size_of made.call ≡ length bytes.now }
    ensures history { history calls.new.items stored.new.items ≡ (made, bytes.now) ∷ history calls.old.items stored.old.items }
    ensures whole { moved calls.new.items ≡ length stored.new.items }
    ensures calls_room { vec_capacity calls.old - vec_len calls.old ≤ (vec_capacity calls.new - vec_len calls.new) + 1 }
    ensures stored_room { vec_capacity stored.old - vec_len stored.old ≤ (vec_capacity stored.new - vec_len stored.new) + length bytes.now }
{
    match calls.push(made) {
        Ok(()) => {}
        Err(_) => unreachable!(),
    }
    match stored.extend_from_slice(bytes) {
        Ok(()) => {}
        Err(_) => unreachable!(),
    }
}
