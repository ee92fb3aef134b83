//! The bytes of a key.
ghost use Rattle.std.specs.Prelude.{◌≡◌, ◌≤◌, ◌+◌, ◌++◌, [], length};
ghost use Rattle.part_keys.specs.Keys.{most_key};

use std::marker::Model;

/// The most bytes of a key: its kind, a part, two texts of 32 bytes with their lengths, a type, a rank and a placeholder.
const MOST_KEY: usize = 83;

/// The bytes of a key, at most 83; contracts see the list of them.
#[derive(Drop)]
pub struct KeyBytes {
    bytes: [u8; MOST_KEY],
    len: usize,
}

impl Model for KeyBytes {
    ghost use Rattle.std.specs.Prelude.{List, ℕ, ◌≤◌, take};
    ghost use Rattle.part_keys.specs.Keys.{most_key};

    ghost Value = { List ℕ };

    ghost view = { λ k. take k.len k.bytes };

    ghost invariant = { λ k. k.len ≤ most_key };
}

impl KeyBytes {
    /// No byte.
    pub fn new() -> KeyBytes
        ensures { result ≡ [] }
    {
        KeyBytes {
            bytes: [0; MOST_KEY],
            len: 0,
        }
    }

    /// The bytes.
    pub fn as_slice(&self) -> &[u8]
        ensures { result.now ≡ self.now }
    {
        &self.bytes[..self.len]
    }

    /// Puts bytes behind the others.
    pub fn put_run(&mut self, run: &[u8])
        requires { length self.old + length run.now ≤ most_key }
        ensures put { self.new ≡ self.old ++ run.now }
        ensures grows { length self.new ≡ length self.old + length run.now }
    {
        let end = self.len + run.len();
        self.bytes[self.len..end].copy_from_slice(run);
        self.len = end;
    }
}
