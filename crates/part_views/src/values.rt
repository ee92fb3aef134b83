//! Reading the pairs of a part's store.
ghost use Rattle.std.specs.Prelude.{◌≡◌, IfOk};
ghost use Rattle.std.specs.Option.{option_and_then};
ghost use Rattle.graph_model.specs.Contents.{row_of};
ghost use Rattle.part_keys.specs.Keys.{IsKind};
ghost use Rattle.part_keys.specs.declared.in_half.InHalf as halves;
ghost use Rattle.part_views.specs.Reading.{key_in, row_in, half_in};

use byte_fields::{ReadRefused, read_u64};
use graph_bytes::{read_half, read_row};
use graph_model::{Half, Row};
use lists::NoMemory;
use part_keys::{Key, VidKind, read_key};
use std::alloc::Global;

/// The key that bytes are.
pub(crate) fn key_in(ids: VidKind, bytes: &[u8]) -> Option<Key>
    requires { IsKind ids }
    ensures { result ≡ key_in ids bytes.now }
{
    read_key(ids, bytes)
}

/// The row that a value is. Refused for want of memory alone.
pub(crate) fn row_in(alloc: Global, bytes: &[u8]) -> Result<Option<Row>, NoMemory>
    ensures { IfOk result (λ row. row ≡ row_in bytes.now) }
{
    match read_row(alloc, bytes) {
        Ok((row, _)) => Ok(Some(row)),
        Err(ReadRefused::Misfit(_)) => Ok(None),
        Err(ReadRefused::NoMemory) => Err(NoMemory),
    }
}

/// The row of the in-half that a value is, where it is here. Refused for want of memory alone.
#[tactic(auto, unfolding(byte_fields::specs::Reading::both_at))]
pub(crate) fn here_in(alloc: Global, bytes: &[u8]) -> Result<Option<Row>, NoMemory>
    ensures { IfOk result (λ row. row ≡ option_and_then (λ (h : halves.InHalf). row_of h.half) (half_in bytes.now)) }
{
    let Ok((_, rest)) = read_u64(bytes) else {
        return Ok(None);
    };
    match read_half(alloc, rest) {
        Ok((Half::Here(row), _)) => Ok(Some(row)),
        Ok((Half::Absent, _)) => Ok(None),
        Err(ReadRefused::Misfit(_)) => Ok(None),
        Err(ReadRefused::NoMemory) => Err(NoMemory),
    }
}
