//! Writes that belong together.
ghost use Rattle.std.specs.Prelude.{◌≡◌, [], ◌∷◌, ◌++◌, length, OnOk, OnErr};
ghost use Rattle.kv_part.specs.Store.{key_of};

use lists::{Bytes, NoMemory};
use std::alloc::Global;
use std::marker::Model;

/// One change of a store.
#[derive(Drop)]
pub enum Write {
    /// The key has this value from now on.
    Put(Bytes, Bytes),
    /// The key has no value from now on.
    Remove(Bytes),
}

impl Write {
    /// The key that it changes.
    pub fn key(&self) -> &[u8]
        ensures { result.now ≡ key_of self.now }
    {
        match self {
            Write::Put(key, _) => key.as_slice(),
            Write::Remove(key) => key.as_slice(),
        }
    }
}

/// Writes, in the order in which they are done; contracts see it as the list of them.
#[derive(Drop)]
pub struct Batch {
    writes: Vec<Write>,
}

impl Model for Batch {
    ghost use Rattle.std.specs.Prelude.{List};
    ghost use Rattle.kv_part.specs.declared.batch.Write.{Write};

    ghost Value = { List Write };

    ghost view = { λ batch. batch.writes.items };
}

impl Batch {
    /// No write. It takes no memory until it grows.
    pub fn new(alloc: Global) -> Batch
        ensures { result ≡ [] }
    {
        Batch {
            writes: Vec::new(alloc),
        }
    }

    /// Puts a write at the end. Refused for want of memory alone, and then the batch is as it was.
    pub fn push(&mut self, write: Write) -> Result<(), NoMemory>
        ensures ok { OnOk result (self.new ≡ self.old ++ write ∷ []) }
        ensures err { OnErr result (self.new ≡ self.old) }
    {
        self.writes.push(write)?;
        Ok(())
    }

    /// The writes, in order.
    pub fn as_slice(&self) -> &[Write]
        ensures { result.now ≡ self.now }
    {
        self.writes.as_slice()
    }

    /// The writes, in their place.
    pub fn into_vec(self) -> Vec<Write>
        ensures { result.items ≡ self }
    {
        let Batch { writes } = self;
        writes
    }
}
