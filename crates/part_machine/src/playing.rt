//! Entries that are played on the store, one after another, and then all taken back: so each one's plan is made where the
//! one before it leads.
ghost use Rattle.std.specs.Prelude.{◌≡◌, ℕ, List, [], OnOk, OnErr};
ghost use Rattle.part_keys.specs.declared.entry.PartEntry.{PartEntry as Entry};
ghost use Rattle.part_rules.specs.Part.{Part};
ghost use Rattle.part_store.specs.Settings.{IsSetting};
ghost use Rattle.part_machine.specs.Chains.{standing};
ghost use Rattle.part_machine.specs.Plans.{IsState, IsNext, IsPlan, AreOwn};
ghost use Rattle.part_machine.specs.Playing.{AreTaken, undone, returned, AreBacksPlaced, KeepsPlaces, IsPlayed, IsUnplayed, IsRun};
ghost use Rattle.part_machine.specs.Taken.{IsTaken};

use crate::back::Back;
use crate::chains::{back_of_turn, copied_turn, hold_turn, note_number, take_turn};
use crate::machine::Machine;
use crate::planning::plan_entry;
use crate::undoing::{batch_back, copied_batch};
use kv_part::KeyStore;
use lists::NoMemory;
use part_keys::PartEntry;
use std::alloc::Global;

/// Makes the entry's plan and what takes it back, and plays it. Refused for want of memory alone, and then nothing was
/// played.
pub(crate) fn play<S: KeyStore>(
    alloc: Global,
    machine: &mut Machine<S>,
    backs: &mut Vec<Back>,
    index: u64,
    entry: &PartEntry,
) -> Result<(), NoMemory>
    requires setting { IsSetting machine.old.setting }
    requires own { AreOwn machine.old.setting (standing machine.old.chains.entries) }
    requires next { IsNext machine.old.next index }
    requires taken { IsTaken machine.old.setting entry.now }
    ensures ok { OnOk result (IsPlayed S.meaning S.has_place index entry.now machine.old backs.old.items machine.new backs.new.items) }
    ensures err { OnErr result (IsUnplayed S.meaning S.has_place machine.old backs.old.items machine.new backs.new.items) }
{
    let plan = plan_entry(
        alloc,
        machine.setting,
        &machine.store,
        &machine.chains,
        index,
        entry,
    )?;
    machine.store.reserve(alloc, &plan.batch)?;
    hold_turn(&mut machine.chains, &plan.turn)?;
    note_number(&mut machine.held, &plan.turn)?;
    let back = Back {
        batch: batch_back(alloc, &machine.store, &plan.batch)?,
        turn: back_of_turn(alloc, &machine.chains, &plan.turn)?,
    };
    let batch = copied_batch(alloc, &plan.batch)?;
    let turn = copied_turn(alloc, &plan.turn)?;
    machine.plans.reserve(1)?;
    backs.push(back)?;
    machine.plans.push_back_reserved(plan);
    machine.store.write(batch);
    take_turn(&mut machine.chains, turn);
    machine.next = index + 1;
    Ok(())
}

/// Takes all back that was played, the last first. It takes no memory.
pub(crate) fn take_back<S: KeyStore>(machine: &mut Machine<S>, mut backs: Vec<Back>)
    requires { AreBacksPlaced (S.has_place machine.old.store) machine.old.chains.entries backs.items }
    ensures store { S.meaning machine.new.store ≡ undone (S.meaning machine.old.store) backs.items }
    ensures chains { standing machine.new.chains.entries ≡ returned (standing machine.old.chains.entries) backs.items }
    ensures places { KeepsPlaces (S.has_place machine.old.store) (S.has_place machine.new.store) machine.old.chains.entries machine.new.chains.entries }
    ensures plans { machine.new.plans ≡ machine.old.plans }
    ensures setting { machine.new.setting ≡ machine.old.setting }
    ensures next { machine.new.next ≡ machine.old.next }
{
    'backs: while let Some(back) = backs.pop() {
        let Back { batch, turn } = back;
        machine.store.write(batch);
        take_turn(&mut machine.chains, turn);
    }
}

/// Plays placed entries, one after another. Refused for want of memory alone, and then some of them were played.
pub(crate) fn play_all<S: KeyStore>(
    alloc: Global,
    machine: &mut Machine<S>,
    backs: &mut Vec<Back>,
    list: &[(u64, PartEntry)],
) -> Result<(), NoMemory>
    requires setting { IsSetting machine.old.setting }
    requires state { (p : Part) × IsState machine.old.setting machine.old.next p (S.meaning machine.old.store) (standing machine.old.chains.entries) }
    requires taken { AreTaken machine.old.setting machine.old.next list.now }
    requires fresh { machine.old.plans.items ≡ [] }
    requires none { backs.old.items ≡ [] }
    ensures ok { OnOk result (IsRun S.meaning S.has_place machine.old list.now machine.new backs.new.items) }
    ensures err { OnErr result ((done : List (ℕ × Entry)) × IsRun S.meaning S.has_place machine.old done machine.new backs.new.items) }
{
    for placed in list {
        play(alloc, machine, backs, placed.0, &placed.1)?;
    }
    Ok(())
}
