//! The packets of one event, among all that were sent.
ghost use Rattle.std.specs.Prelude.{◌≡◌, ◌<◌, ◌≤◌, ◌+◌, length, Some, slice_get, vec_len};
ghost use Rattle.world_mail.specs.declared.block.Block.{Block as Packed};
ghost use Rattle.world_mail.specs.Sent.{marked};
ghost use Rattle.world_mail.specs.Blocks.{AreNumbered, sent_in};

use crate::packets::Sent;

/// The number of the first packet, and the packets.
#[derive(Drop)]
pub struct Block {
    pub(crate) first: usize,
    pub(crate) sent: Vec<Sent>,
}

impl Block {
    /// The packet at this place is delivered or lost, the first time or again.
    pub(crate) fn mark(&mut self, at: usize)
        requires { at < vec_len self.old.sent }
        ensures first { self.new.first ≡ self.old.first }
        ensures sent { self.new.sent.items ≡ marked self.old.sent.items at }
    {
        self.sent[at].done = true;
    }
}

/// The place of the block that has the packet of this number, by halves.
pub(crate) fn block_of(blocks: &[Block], number: usize) -> usize
    requires numbered { AreNumbered 0 blocks.now }
    requires sent { number < length (sent_in blocks.now) }
    ensures has { (b : Packed) → slice_get blocks.now result ≡ Some b → (b.first ≤ number) × (number < b.first + length b.sent.items) }
    ensures there { result < length blocks.now }
{
    let mut low = 0;
    let mut high = blocks.len();
    while high - low > 1 {
        let middle = low + (high - low) / 2;
        if blocks[middle].first <= number {
            low = middle;
        } else {
            high = middle;
        }
    }
    low
}
