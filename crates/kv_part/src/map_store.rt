//! The store over a tree.
ghost use Rattle.std.specs.Prelude.{◌≡◌, List, ℕ, Bool, true, is_some, Option, IfOk, OnOk, OnErr};
ghost use Rattle.std.specs.Option.{option_copied};
ghost use Rattle.std.specs.FinMap as map;
ghost use Rattle.kv_part.specs.Store.{Contents, HasPlaces, written, under};
ghost use Rattle.kv_part.specs.Places.{with_at, stored, place_at, is_placed};

use crate::Pairs;
use crate::batch::{Batch, Write};
use crate::key_store::KeyStore;
use lists::{Bytes, Listed, NoMemory};
use std::alloc::Global;
use std::collections::BTreeMap;

/// A store over a `BTreeMap`. Each of its keys is a place, with a value or without one; only a place with a value
/// is a pair of its meaning.
#[derive(Drop)]
pub struct MapStore {
    places: BTreeMap<Vec<u8>, Option<Bytes>>,
}

impl MapStore {
    ghost use Rattle.kv_part.specs.MapStore.{contents};

    /// The empty store. It takes no memory until it grows.
    pub fn new(alloc: Global) -> MapStore
        ensures { contents result ≡ map.empty }
    {
        MapStore {
            places: BTreeMap::new(alloc),
        }
    }
}

// Makes a place for the key, without a value, where there is none.
fn make_place(
    places: &mut BTreeMap<Vec<u8>, Option<Bytes>>,
    alloc: Global,
    key: &[u8],
) -> Result<(), NoMemory>
    ensures made { OnOk result (is_placed (λ k. k.items) places.new.entries key.now ≡ true) }
    ensures kept { (other : List ℕ) → is_placed (λ k. k.items) places.old.entries other ≡ true → is_placed (λ k. k.items) places.new.entries other ≡ true }
    ensures same { stored (λ k. k.items) places.new.entries ≡ stored (λ k. k.items) places.old.entries }
{
    if places.contains_key(key) {
        return Ok(());
    }
    places.insert(Vec::from_slice(alloc, key)?, None)?;
    Ok(())
}

// Fills or empties the place of the key.
fn set_place(places: &mut BTreeMap<Vec<u8>, Option<Bytes>>, key: &[u8], value: Option<Bytes>)
    requires { is_placed (λ k. k.items) places.old.entries key.now ≡ true }
    ensures set { stored (λ k. k.items) places.new.entries ≡ with_at (stored (λ k. k.items) places.old.entries) key.now value }
    ensures kept { (other : List ℕ) → is_placed (λ k. k.items) places.new.entries other ≡ is_placed (λ k. k.items) places.old.entries other }
{
    if let Some(place) = places.get_mut(key) {
        *place = value;
    }
}

impl KeyStore for MapStore {
    ghost use Rattle.kv_part.specs.MapStore.{contents, has_place_for};

    ghost meaning = { contents };

    ghost has_place = { has_place_for };

    fn get(&self, key: &[u8]) -> Option<&[u8]> {
        let Some(place) = self.places.get(key) else {
            return None;
        };
        let Some(value) = place else {
            return None;
        };
        Some(value.as_slice())
    }

    fn reserve(&mut self, alloc: Global, batch: &Batch) -> Result<(), NoMemory> {
        for write in batch.as_slice() {
            make_place(&mut self.places, alloc, write.key())?;
        }
        Ok(())
    }

    fn write(&mut self, batch: Batch) {
        for write in batch.into_vec() {
            match write {
                Write::Put(key, value) => set_place(&mut self.places, key.as_slice(), Some(value)),
                Write::Remove(key) => set_place(&mut self.places, key.as_slice(), None),
            }
        }
    }

    fn scan_prefix(&self, alloc: Global, prefix: &[u8]) -> Result<Pairs, NoMemory> {
        let first = Vec::from_slice(alloc, prefix)?;
        let mut pairs = Listed::new(alloc);
        for (key, place) in self.places.range(&first..) {
            if !key.starts_with(prefix) {
                return Ok(pairs);
            }
            if let Some(value) = place {
                pairs.push((
                    Listed::from_slice(alloc, key.as_slice())?,
                    value.copy(alloc)?,
                ))?;
            }
        }
        Ok(pairs)
    }
}
