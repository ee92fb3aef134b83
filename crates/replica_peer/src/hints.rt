//! Hints that are used up.
ghost use Rattle.std.specs.Prelude.{◌≡◌, ◌==◌, ◌&&◌, not, ℕ, if◌then◌else◌};
ghost use Rattle.std.specs.FinMap.{contains_key};
ghost use Rattle.std.specs.List.{list_any};
ghost use Rattle.chain_leader.specs.Leading as rules;
ghost use Rattle.replica_peer.specs.Ended.{ends_at, ends_among};
ghost use Rattle.replica_state.specs.Places.{number_held};

use chain_leader::{ChainTable, chain_in};
use part_keys::PartEntry;
use replica_state::{Places, wipe};

/// The hints of these chains are used up. It takes no memory.
pub(crate) fn use_up(hints: &mut Places<u32>, told: &[u64])
    ensures { (v : ℕ) → number_held hints.new.entries v ≡ (if list_any (λ w. v == w) told.now then 0 else number_held hints.old.entries v) }
{
    for v in told {
        wipe(hints, *v);
    }
}

// The hint of a chain that ended is used up, where it isn't in the table.
fn use_up_ended(hints: &mut Places<u32>, table: &ChainTable, ended: Option<u64>)
    ensures { (v : ℕ) → number_held hints.new.entries v ≡ (if ends_at v ended && not (contains_key table.now.0 v) then 0 else number_held hints.old.entries v) }
{
    let Some(v) = ended else {
        return;
    };
    if table.get(v).is_some() {
        return;
    }
    wipe(hints, v);
}

/// The hints of the chains that these entries ended are used up, where they aren't in the table. It takes no memory.
pub(crate) fn use_up_gone(hints: &mut Places<u32>, table: &ChainTable, entries: &[(u64, PartEntry)])
    ensures { (v : ℕ) → number_held hints.new.entries v ≡ (if ends_among v entries.now && not (contains_key table.now.0 v) then 0 else number_held hints.old.entries v) }
{
    for placed in entries {
        use_up_ended(hints, table, chain_in(&placed.1));
    }
}
