//! Values by number.
use lists::NoMemory;
use std::alloc::Global;
use std::collections::BTreeMap;
use std::marker::Model;

/// Values by number; contracts see them as a finite map.
#[derive(Drop)]
pub struct Numbered<V> {
    kept: BTreeMap<u64, V>,
}

impl<V> Model for Numbered<V> {
    ghost use Rattle.std.specs.Coded.{coded_ℕ};
    ghost use Rattle.std.specs.FinMap as map;
    ghost use Rattle.std.specs.Ordering.{nat_cmp};

    ghost Value = { map.FinMap nat_cmp V };

    ghost coded = { map.code coded_ℕ V.code };

    ghost view = { λ a. map.from_entries a.kept.entries };
}

impl<V: Drop> Numbered<V> {
    ghost use Rattle.std.specs.FinMap as map;
    ghost use Rattle.std.specs.Option.{option_copied};
    ghost use Rattle.std.specs.Prelude.{◌≡◌, OnOk};

    /// Nothing. It takes no memory until it grows.
    pub fn new(alloc: Global) -> Numbered<V>
        ensures { result ≡ map.empty }
    {
        Numbered {
            kept: BTreeMap::new(alloc),
        }
    }

    /// The value of a number.
    pub fn get(&self, number: u64) -> Option<&V>
        ensures { option_copied result ≡ map.get self.now number }
    {
        self.kept.get(&number)
    }

    /// Puts a value under its number, in the place of the one before. Refused for want of memory alone.
    pub fn put(&mut self, number: u64, value: V) -> Result<(), NoMemory>
        ensures { OnOk result (self.new ≡ map.insert self.old number value) }
    {
        self.kept.insert(number, value)?;
        Ok(())
    }

    /// Takes a value out.
    pub fn remove(&mut self, number: u64) -> Option<V>
        ensures value { result ≡ map.get self.old number }
        ensures others { self.new ≡ map.remove self.old number }
    {
        self.kept.remove(&number)
    }
}
