//! The chains that stand, by number, beside the store.
ghost use Rattle.std.specs.Prelude.{◌≡◌, ◌++◌, ℕ, true, IfOk, OnOk, Option};
ghost use Rattle.std.specs.Ordering.{nat_cmp};
ghost use Rattle.std.specs.Option.{option_copied};
ghost use Rattle.std.specs.FinMap.{get};
ghost use Rattle.maps.specs.Maps.{with_at};
ghost use Rattle.maps.specs.Places.{has_place};
ghost use Rattle.part_machine.specs.Chains.{standing, turned, turn_back};
ghost use Rattle.part_machine.specs.Placed.{HasTurnPlace, numbers_in};

use crate::turn::Turn;
use lists::NoMemory;
use part_keys::PrimeRec;
use std::alloc::Global;
use std::collections::BTreeMap;

/// Chains by number; a number may have a place with no chain in it, which is as if it had none. Such a place stands for as
/// long as a plan may need it.
pub(crate) type Places = BTreeMap<u64, Option<PrimeRec>>;

/// The chain of this number.
pub(crate) fn chain_of(places: &Places, v: u64) -> Option<&PrimeRec>
    ensures { option_copied result ≡ get (standing places.now.entries) v }
{
    let Some(place) = places.get(&v) else {
        return None;
    };
    let Some(chain) = place else {
        return None;
    };
    Some(chain)
}

/// An equal chain. Refused for want of memory alone.
pub(crate) fn copied_chain(alloc: Global, chain: &PrimeRec) -> Result<PrimeRec, NoMemory>
    ensures { IfOk result (λ copy. copy ≡ chain.now) }
{
    Ok(PrimeRec {
        v: chain.v,
        id: chain.id,
        remote: chain.remote,
        list: chain.list.copy(alloc)?,
        double: chain.double,
    })
}

/// An equal turn. Refused for want of memory alone.
pub(crate) fn copied_turn(alloc: Global, turn: &Option<Turn>) -> Result<Option<Turn>, NoMemory>
    ensures { IfOk result (λ copy. copy ≡ turn.now) }
{
    match turn {
        None => Ok(None),
        Some(turn) => match &turn.chain {
            None => Ok(Some(Turn {
                at: turn.at,
                chain: None,
            })),
            Some(chain) => Ok(Some(Turn {
                at: turn.at,
                chain: Some(copied_chain(alloc, chain)?),
            })),
        },
    }
}

/// The turn that takes another back. Refused for want of memory alone.
pub(crate) fn back_of_turn(
    alloc: Global,
    places: &Places,
    turn: &Option<Turn>,
) -> Result<Option<Turn>, NoMemory>
    ensures { IfOk result (λ back. back ≡ turn_back (standing places.now.entries) turn.now) }
{
    match turn {
        None => Ok(None),
        Some(turn) => match chain_of(places, turn.at) {
            None => Ok(Some(Turn {
                at: turn.at,
                chain: None,
            })),
            Some(chain) => Ok(Some(Turn {
                at: turn.at,
                chain: Some(copied_chain(alloc, chain)?),
            })),
        },
    }
}

fn hold(places: &mut Places, v: u64) -> Result<(), NoMemory>
    ensures held { OnOk result (has_place nat_cmp places.new.entries v ≡ true) }
    ensures kept { (q : ℕ) → has_place nat_cmp places.old.entries q ≡ true → has_place nat_cmp places.new.entries q ≡ true }
    ensures same { standing places.new.entries ≡ standing places.old.entries }
{
    if places.contains_key(&v) {
        return Ok(());
    }
    places.insert(v, None)?;
    Ok(())
}

/// Makes a place for a turn. Refused for want of memory alone; the chains stay.
pub(crate) fn hold_turn(places: &mut Places, turn: &Option<Turn>) -> Result<(), NoMemory>
    ensures held { OnOk result (HasTurnPlace places.new.entries turn.now) }
    ensures kept { (q : ℕ) → has_place nat_cmp places.old.entries q ≡ true → has_place nat_cmp places.new.entries q ≡ true }
    ensures same { standing places.new.entries ≡ standing places.old.entries }
{
    match turn {
        None => Ok(()),
        Some(turn) => hold(places, turn.at),
    }
}

fn fill(places: &mut Places, v: u64, chain: Option<PrimeRec>)
    requires { has_place nat_cmp places.old.entries v ≡ true }
    ensures kept { (q : ℕ) → has_place nat_cmp places.old.entries q ≡ true → has_place nat_cmp places.new.entries q ≡ true }
    ensures filled { standing places.new.entries ≡ with_at (standing places.old.entries) v chain }
{
    let Ok(_before) = places.insert(v, chain) else {
        unreachable!();
    };
}

/// Makes a turn, in its place.
pub(crate) fn take_turn(places: &mut Places, turn: Option<Turn>)
    requires { HasTurnPlace places.old.entries turn }
    ensures kept { (q : ℕ) → has_place nat_cmp places.old.entries q ≡ true → has_place nat_cmp places.new.entries q ≡ true }
    ensures turned { standing places.new.entries ≡ turned (standing places.old.entries) turn }
{
    match turn {
        None => {}
        Some(turn) => {
            let Turn { at, chain } = turn;
            fill(places, at, chain);
        }
    }
}

/// Notes the number of a turn. Refused for want of memory alone.
pub(crate) fn note_number(numbers: &mut Vec<u64>, turn: &Option<Turn>) -> Result<(), NoMemory>
    ensures { OnOk result (numbers.new.items ≡ numbers.old.items ++ numbers_in turn.now) }
{
    match turn {
        None => Ok(()),
        Some(turn) => {
            numbers.push(turn.at)?;
            Ok(())
        }
    }
}

// Takes the place of a number out, where it has no chain.
fn drop_place(places: &mut Places, v: u64)
    ensures { standing places.new.entries ≡ standing places.old.entries }
{
    let Some(place) = places.get(&v) else {
        return;
    };
    let None = place else {
        return;
    };
    places.remove(&v);
}

/// Takes out the places of these numbers in which no chain stands. The chains stay.
pub(crate) fn drop_places(places: &mut Places, numbers: Vec<u64>)
    ensures { standing places.new.entries ≡ standing places.old.entries }
{
    for v in numbers {
        drop_place(places, v);
    }
}
