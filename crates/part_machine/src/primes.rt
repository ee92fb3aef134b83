//! The chains that stand behind a number.
ghost use Rattle.std.specs.Prelude.{◌≡◌, IfOk, nat_lt, length};
ghost use Rattle.part_rules.specs.View.{at_once};
ghost use Rattle.part_machine.specs.Chains.{standing, first_behind, all_behind};

use crate::chains::{Places, copied_chain};
use lists::{Listed, NoMemory};
use part_keys::PrimeRec;
use std::alloc::Global;

/// Chains that stand.
pub type Primes = Listed<PrimeRec>;

/// How many chains are taken up at once.
const AT_ONCE: usize = 64;

/// The first chains behind a number, as many as are taken up at once. Refused for want of memory alone.
pub(crate) fn first_behind(alloc: Global, places: &Places, after: u64) -> Result<Primes, NoMemory>
    ensures { IfOk result (λ list. list ≡ first_behind after (standing places.now.entries)) }
{
    let mut made = Listed::new(alloc);
    for (v, place) in places.range(&after..) {
        if made.len() == AT_ONCE {
            return Ok(made);
        }
        if let Some(chain) = place {
            if after < *v {
                made.push(copied_chain(alloc, chain)?)?;
            }
        }
    }
    Ok(made)
}

/// Whether more chains stand behind a number than are taken up at once.
pub(crate) fn more_behind(places: &Places, after: u64) -> bool
    ensures { result ≡ nat_lt at_once (length (all_behind after (standing places.now.entries))) }
{
    let mut count = 0;
    for (v, place) in places.range(&after..) {
        if AT_ONCE < count {
            return true;
        }
        if let Some(_) = place {
            if *v > after {
                count += 1;
            }
        }
    }
    AT_ONCE < count
}
