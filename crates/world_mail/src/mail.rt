//! The packets that were sent.
ghost use Rattle.std.specs.Prelude.{◌≡◌, ◌<◌, ◌≤◌, length, Some, slice_get};
ghost use Rattle.world_mail.specs.Sent.{front_of};
ghost use Rattle.world_mail.specs.Blocks.{AreNumbered, sent_in};

use crate::block::{Block, block_of};
use crate::packets::{Packets, Sent};
use lists::NoMemory;
use std::alloc::Global;
use std::marker::Model;

/// Every packet that was sent, as bytes, a block an event; and of each whether it was delivered or lost. Packets are numbered
/// from 0. Contracts see the packets, and for how many blocks more there is room.
#[derive(Drop)]
pub struct Mail {
    blocks: Vec<Block>,
    len: usize,
    /// All packets below are done, and this one isn't.
    front: usize,
}

impl Model for Mail {
    ghost use Rattle.std.specs.Prelude.{ℕ, List, ◌-◌, vec_len, vec_capacity};
    ghost use Rattle.std.specs.Coded.{coded_list, coded×, coded_ℕ};
    ghost use Rattle.world_mail.specs.declared.packets.Sent.{Sent};
    ghost use Rattle.world_mail.specs.contracts.packets.Sent as packets;
    ghost use Rattle.world_mail.specs.Blocks.{sent_in, AreKept};

    ghost Value = { List Sent × ℕ };

    ghost coded = { coded× (coded_list packets.the_row.coded) coded_ℕ };

    ghost view = { λ a. (sent_in a.blocks.items, vec_capacity a.blocks - vec_len a.blocks) };

    ghost invariant = { λ a. AreKept a.blocks.items a.len a.front };
}

// The packet of this number.
fn sent_at(blocks: &[Block], number: usize) -> &Sent
    requires numbered { AreNumbered 0 blocks.now }
    requires sent { number < length (sent_in blocks.now) }
    ensures { slice_get (sent_in blocks.now) number ≡ Some result.now }
{
    let block = &blocks[block_of(blocks, number)];
    &block.sent[number - block.first]
}

// How many packets at the front are done, of which at least so many are.
fn front_from(blocks: &[Block], len: usize, front: usize) -> usize
    requires numbered { AreNumbered 0 blocks.now }
    requires len { len ≡ length (sent_in blocks.now) }
    requires below { front ≤ front_of (sent_in blocks.now) }
    ensures { result ≡ front_of (sent_in blocks.now) }
{
    let mut front = front;
    while front < len && sent_at(blocks, front).done {
        front += 1;
    }
    front
}

impl Mail {
    ghost use Rattle.std.specs.Prelude.{◌≡◌, ◌<◌, ◌+◌, ◌-◌, ◌≤◌, ◌^◌, ◌++◌, [], length, slice_get, Some, option_map, OnOk};
    ghost use Rattle.std.specs.List.{list_all};
    ghost use Rattle.world_mail.specs.Sent.{fresh, marked, lowest};

    /// No packet. It takes no memory until one is sent.
    pub fn new(alloc: Global) -> Mail
        ensures { result.0 ≡ [] }
    {
        Mail {
            blocks: Vec::new(alloc),
            len: 0,
            front: 0,
        }
    }

    /// How many packets were sent.
    pub fn len(&self) -> usize
        ensures { result ≡ length self.now.0 }
    {
        self.len
    }

    /// The packet of this number.
    pub fn sent(&self, number: usize) -> &Sent
        requires { number < length self.now.0 }
        ensures { slice_get self.now.0 number ≡ Some result.now }
    {
        sent_at(self.blocks.as_slice(), number)
    }

    /// Room for so many packets of one event. Refused for want of memory alone; the packets stay, and no room is lost.
    pub fn reserve(&mut self, packets: usize) -> Result<(), NoMemory>
        ensures room { OnOk result (0 < self.new.1) }
        ensures numbers { OnOk result (length self.new.0 + packets < 2 ^ 64) }
        ensures spare { self.old.1 ≤ self.new.1 }
        ensures same { self.new.0 ≡ self.old.0 }
    {
        if self.len.checked_add(packets).is_none() {
            return Err(NoMemory);
        }
        self.blocks.reserve(1)?;
        Ok(())
    }

    /// An event sends these packets, for which there is room. None of them was delivered or lost.
    pub fn send(&mut self, packets: Packets)
        requires room { 0 < self.old.1 }
        requires numbers { length self.old.0 + length packets < 2 ^ 64 }
        ensures sent { self.new.0 ≡ self.old.0 ++ fresh packets }
        ensures spare { self.old.1 - 1 ≤ self.new.1 }
    {
        let first = self.len;
        let Packets { sent } = packets;
        self.len = first + sent.len();
        match self.blocks.push(Block { first, sent }) {
            Ok(()) => {}
            Err(_) => unreachable!(),
        }
    }

    /// The packet of this number is delivered or lost, the first time or again.
    pub fn mark(&mut self, number: usize)
        requires { number < length self.old.0 }
        ensures sent { self.new.0 ≡ marked self.old.0 number }
        ensures spare { self.old.1 ≤ self.new.1 }
    {
        let at = block_of(self.blocks.as_slice(), number);
        let block = &mut self.blocks[at];
        block.mark(number - block.first);
        self.front = front_from(self.blocks.as_slice(), self.len, self.front);
    }

    /// The lowest number of a packet that was neither delivered nor lost; none exactly where each was.
    pub fn lowest(&self) -> Option<usize>
        ensures { result ≡ lowest self.now.0 }
    {
        if self.front < self.len {
            Some(self.front)
        } else {
            None
        }
    }
}
