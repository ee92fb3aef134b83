//! The packets that an event sends.
use lists::{Bytes, NoMemory};
use std::alloc::Global;
use std::marker::Model;

/// A packet that was sent: its bytes, and whether it was delivered or lost.
#[derive(Drop)]
pub struct Sent {
    pub bytes: Bytes,
    pub done: bool,
}

/// The packets that an event sends, in order, each as its bytes. Contracts see the list.
#[derive(Drop)]
pub struct Packets {
    pub(crate) sent: Vec<Sent>,
}

impl Model for Packets {
    ghost use Rattle.std.specs.Prelude.{◌≡◌, ℕ, List};
    ghost use Rattle.world_mail.specs.Sent.{bytes_of, fresh};

    ghost Value = { List (List ℕ) };

    ghost view = { λ a. bytes_of a.sent.items };

    ghost invariant = { λ a. a.sent.items ≡ fresh (bytes_of a.sent.items) };
}

impl Packets {
    ghost use Rattle.std.specs.Prelude.{◌≡◌, ◌++◌, ◌∷◌, [], length, OnOk, OnErr};

    /// No packet. It takes no memory until one is put in.
    pub fn new(alloc: Global) -> Packets
        ensures { result ≡ [] }
    {
        Packets {
            sent: Vec::new(alloc),
        }
    }

    /// How many packets there are.
    pub fn len(&self) -> usize
        ensures { result ≡ length self.now }
    {
        self.sent.len()
    }

    /// One packet more. Refused for want of memory alone, and then the others stay.
    pub fn push(&mut self, bytes: Bytes) -> Result<(), NoMemory>
        ensures ok { OnOk result (self.new ≡ self.old ++ bytes ∷ []) }
        ensures err { OnErr result (self.new ≡ self.old) }
    {
        self.sent.push(Sent { bytes, done: false })?;
        Ok(())
    }
}
