//! What a store of keys does.
ghost use Rattle.std.specs.Prelude.{◌≡◌, List, ℕ, Bool, true, IfOk, OnOk};
ghost use Rattle.std.specs.Option.{option_copied};
ghost use Rattle.std.specs.FinMap as map;
ghost use Rattle.kv_part.specs.Store.{Contents, HasPlaces, written, under};

use crate::Pairs;
use crate::batch::Batch;
use lists::NoMemory;
use std::alloc::Global;

/// A store of keys and values. It means a finite map; a key for which it has a place can be written without memory.
pub trait KeyStore {
    ghost meaning: { Self → Contents };

    ghost has_place: { Self → List ℕ → Bool };

    /// The value that the key has.
    fn get(&self, key: &[u8]) -> Option<&[u8]>
        ensures { option_copied result ≡ map.get (meaning self.now) key.now };

    /// Makes a place for each key of the batch. It changes no value. Refused for want of memory alone.
    fn reserve(&mut self, alloc: Global, batch: &Batch) -> Result<(), NoMemory>
        ensures reserved { OnOk result (HasPlaces (has_place self.new) batch.now) }
        ensures kept { (key : List ℕ) → has_place self.old key ≡ true → has_place self.new key ≡ true }
        ensures same { meaning self.new ≡ meaning self.old };

    /// Does the writes in their order, without memory. There is a place for each of their keys, and the places stay.
    fn write(&mut self, batch: Batch)
        requires { HasPlaces (has_place self.old) batch }
        ensures written { meaning self.new ≡ written (meaning self.old) batch }
        ensures places { (key : List ℕ) → has_place self.new key ≡ has_place self.old key };

    /// The pairs whose keys begin with the prefix, by rising key. Refused for want of memory alone.
    fn scan_prefix(&self, alloc: Global, prefix: &[u8]) -> Result<Pairs, NoMemory>
        ensures { IfOk result (λ pairs. pairs ≡ under prefix.now (meaning self.now)) };
}
