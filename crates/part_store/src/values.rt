//! Reading the values that a part keeps, as far as its decisions need them.
ghost use Rattle.std.specs.Prelude.{◌≡◌, Some, IfSome};
ghost use Rattle.graph_bytes.specs.Fits.{IsSmall};
ghost use Rattle.byte_fields.specs.Reading.{Reads};
ghost use Rattle.part_store.specs.Reads.{outcome_at, last_at, number_of_value, chain_of_value, last_of_value};

use byte_fields::{Misfit, read_u64};
use graph_bytes::read_call;
use graph_model::CallId;
use part_rules::{Kept, Outcome};

/// The number at the front of a value, or 0.
pub(crate) fn front_number(bytes: &[u8]) -> u64
    ensures { result ≡ number_of_value (Some bytes.now) }
{
    match read_u64(bytes) {
        Ok((n, _)) => n,
        Err(_) => 0,
    }
}

/// The number and the call of the chain that a value stands for.
#[tactic(auto, unfolding(byte_fields::specs::Reading::both_at))]
pub(crate) fn chain_in(bytes: &[u8]) -> Option<(u64, CallId)>
    ensures is { result ≡ chain_of_value (Some bytes.now) }
    ensures small { IfSome result (λ x. IsSmall x.1.client) }
{
    let Ok((v, rest)) = read_u64(bytes) else {
        return None;
    };
    match read_call(rest) {
        Ok((id, _)) => Some((v, id)),
        Err(_) => None,
    }
}

// An outcome, and the bytes after it.
#[tactic(auto, unfolding(crate::specs::Reads::outcome_at, byte_fields::specs::Reading::byte_at, byte_fields::specs::Reading::made_at))]
fn read_outcome(bytes: &[u8]) -> Result<(Outcome, &[u8]), Misfit>
    ensures { Reads (λ x. (x.0, x.1.now)) result (outcome_at bytes.now) }
{
    match bytes {
        [0, rest @ ..] => Ok((Outcome::Open, rest)),
        [1, rest @ ..] => Ok((Outcome::Fine, rest)),
        [2, rest @ ..] => Ok((Outcome::Skipped, rest)),
        [3, rest @ ..] => Ok((Outcome::Pending, rest)),
        [4, rest @ ..] => Ok((Outcome::Cancelled, rest)),
        [5, rest @ ..] => {
            let (id, rest) = read_call(rest)?;
            Ok((Outcome::Conflict(id), rest))
        }
        _ => Err(Misfit::at(bytes)),
    }
}

/// A client's last call.
#[tactic(auto, unfolding(crate::specs::Reads::last_at, byte_fields::specs::Reading::both_at, byte_fields::specs::Reading::made_at))]
pub(crate) fn last_in(bytes: &[u8]) -> Option<Kept>
    ensures { result ≡ last_of_value (Some bytes.now) }
{
    let Ok((number, rest)) = read_u64(bytes) else {
        return None;
    };
    match read_outcome(rest) {
        Ok((outcome, _)) => Some(Kept { number, outcome }),
        Err(_) => None,
    }
}
