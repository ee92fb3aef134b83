//! Entries that are applied, and the table behind them.
ghost use Rattle.std.specs.Prelude.{◌≡◌, ◌≤◌, ◌-◌, ◌+◌, ℕ, List, [], ◌∷◌};
ghost use Rattle.part_keys.specs.declared.entry.PartEntry.{PartEntry as Entry};
ghost use Rattle.part_rules.specs.Machine.{applied};
ghost use Rattle.part_rules.specs.Part.{Part};
ghost use Rattle.part_machine.specs.Machine.{IsMachine};
ghost use Rattle.part_machine.specs.Playing as plays;
ghost use Rattle.chain_leader.specs.Leading as rules;
ghost use Rattle.replica_peer.specs.Ended.{gone_by, forgotten};
ghost use Rattle.replica_peer.specs.Next.{rows_in, first_row, rows_behind};
ghost use Rattle.replica_peer.specs.Worked.{with_row, tabled};

use chain_leader::{ChainTable, chain_in};
use kv_part::KeyStore;
use part_keys::{ChainState, PartEntry};
use part_machine::Machine;
use std::collections::VecDeque;

// The table behind an entry: the chain that it may end is forgotten, where its record is gone, and the row of the one that
// begins is added.
fn follow(table: &mut ChainTable, gone: Option<u64>, begins: Option<(u64, ChainState)>)
    requires { rows_in (begins ∷ []) ≤ table.old.1 }
    ensures table { table.new.0 ≡ with_row (forgotten table.old.0 gone) begins }
    ensures room { table.old.1 - rows_in (begins ∷ []) ≤ table.new.1 }
{
    if let Some(v) = gone {
        table.forget(v);
    }
    if let Some((v, chain)) = begins {
        table.add(v, chain);
    }
}

// The chain that an entry may end, where it doesn't stand in the machine behind the entry.
fn gone_in<S: KeyStore>(machine: &Machine<S>, entry: &PartEntry) -> Option<u64>
    ensures { (p : Part) (rest : List (ℕ × Entry)) → IsMachine S.meaning S.has_place p rest machine.now → result ≡ gone_by p (rules.chain_in entry.now) }
{
    let Some(v) = chain_in(entry) else {
        return None;
    };
    if machine.stands(v) {
        return None;
    }
    Some(v)
}

// Applies an entry, and the table follows.
fn apply_one<S: KeyStore>(
    machine: &mut Machine<S>,
    table: &mut ChainTable,
    index: u64,
    entry: &PartEntry,
    begins: Option<(u64, ChainState)>,
)
    requires shows { (p : Part) × (rest : List (ℕ × Entry)) × IsMachine S.meaning S.has_place p ((index, entry.now) ∷ rest) machine.old }
    requires room { rows_in (begins ∷ []) ≤ table.old.1 }
    ensures shows { (p : Part) (rest : List (ℕ × Entry)) → IsMachine S.meaning S.has_place p ((index, entry.now) ∷ rest) machine.old → IsMachine S.meaning S.has_place (applied machine.old.setting.parts index entry.now p).0 rest machine.new }
    ensures table { (p : Part) (rest : List (ℕ × Entry)) → IsMachine S.meaning S.has_place p ((index, entry.now) ∷ rest) machine.old → table.new.0 ≡ with_row (rules.forgetting table.old.0 (applied machine.old.setting.parts index entry.now p).0 (rules.chain_in entry.now)) begins }
    ensures room { table.old.1 - rows_in (begins ∷ []) ≤ table.new.1 }
    ensures setting { machine.new.setting ≡ machine.old.setting }
    ensures next { machine.new.next ≡ index + 1 }
{
    let _said = machine.apply(index, entry);
    let gone = gone_in(machine, entry);
    follow(table, gone, begins);
}

// The next row, none where there is none left.
fn next_row(rows: &mut VecDeque<Option<(u64, ChainState)>>) -> Option<(u64, ChainState)>
    ensures row { result ≡ first_row rows.old.items }
    ensures rest { rows.new.items ≡ rows_behind rows.old.items }
{
    match rows.pop_front() {
        None => None,
        Some(row) => row,
    }
}

/// Applies entries that are reserved, and the table follows, with the rows of the chains that begin. It takes no memory.
pub(crate) fn apply_all<S: KeyStore>(
    machine: &mut Machine<S>,
    table: &mut ChainTable,
    entries: &[(u64, PartEntry)],
    mut begins: VecDeque<Option<(u64, ChainState)>>,
)
    requires shows { (p : Part) × IsMachine S.meaning S.has_place p entries.now machine.old }
    requires room { rows_in begins.items ≤ table.old.1 }
    ensures shows { (p : Part) → IsMachine S.meaning S.has_place p entries.now machine.old → IsMachine S.meaning S.has_place (plays.behind machine.old.setting p entries.now) [] machine.new }
    ensures table { (p : Part) → IsMachine S.meaning S.has_place p entries.now machine.old → table.new.0 ≡ tabled machine.old.setting.parts p table.old.0 entries.now begins.items }
    ensures setting { machine.new.setting ≡ machine.old.setting }
    ensures next { machine.new.next ≡ plays.next_by machine.old.next entries.now }
{
    for placed in entries {
        let row = next_row(&mut begins);
        apply_one(machine, table, placed.0, &placed.1, row);
    }
}
