//! What is kept by number, in places that are made ahead.
ghost use Rattle.std.specs.Prelude.{◌≡◌, ℕ, true, None, OnOk};
ghost use Rattle.std.specs.Ordering.{nat_cmp};
ghost use Rattle.maps.specs.Maps.{with_at};
ghost use Rattle.maps.specs.Places.{has_place};
ghost use Rattle.replica_state.specs.Places.{held, standing};

use lists::NoMemory;
use std::collections::BTreeMap;

/// Values by number; a number may have a place with no value in it, which is as if it had none.
pub type Places<V> = BTreeMap<u64, Option<V>>;

/// What stands at a number.
pub fn at<V: Copy + Drop>(places: &Places<V>, v: u64) -> Option<V>
    ensures { result ≡ held places.now.entries v }
{
    let Some(place) = places.get(&v) else {
        return None;
    };
    *place
}

/// Makes a place for a number. Refused for want of memory alone; what stands in places stays.
pub fn hold<V: Drop>(places: &mut Places<V>, v: u64) -> Result<(), NoMemory>
    ensures held { OnOk result (has_place nat_cmp places.new.entries v ≡ true) }
    ensures kept { (q : ℕ) → has_place nat_cmp places.old.entries q ≡ true → has_place nat_cmp places.new.entries q ≡ true }
    ensures same { standing places.new.entries ≡ standing places.old.entries }
{
    if places.contains_key(&v) {
        return Ok(());
    }
    places.insert(v, None)?;
    Ok(())
}

/// Puts a value in its place. It takes no memory.
pub fn fill<V: Drop>(places: &mut Places<V>, v: u64, value: Option<V>)
    requires { has_place nat_cmp places.old.entries v ≡ true }
    ensures kept { (q : ℕ) → has_place nat_cmp places.old.entries q ≡ true → has_place nat_cmp places.new.entries q ≡ true }
    ensures filled { standing places.new.entries ≡ with_at (standing places.old.entries) v value }
{
    let Ok(_before) = places.insert(v, value) else {
        unreachable!();
    };
}

/// Nothing stands at a number any more, and it has no place. It takes no memory.
pub fn wipe<V: Drop>(places: &mut Places<V>, v: u64)
    ensures { standing places.new.entries ≡ with_at (standing places.old.entries) v None }
{
    places.remove(&v);
}
