//! What a control line asks for.
use lists::Listed;

/// What a control line asks for. A node, a part and a client are given by their numbers, a kind of packets by its
/// number, from 1.
#[derive(Debug, Clone, Copy)]
pub enum Control {
    /// `:cut A B`: packets between these two nodes are lost from now on.
    Cut(u32, u32),
    /// `:heal`: no link is cut any more.
    Heal,
    /// `:lose KIND`: packets of this kind are lost from now on.
    Lose(u8),
    /// `:keep`: no kind is lost any more.
    Keep,
    /// `:again KIND n`: the n-th packet of this kind is delivered once more.
    Again(u8, u64),
    /// `:crash N`: each replica on this node that is up crashes.
    Crash(u32),
    /// `:restart N`: each replica on this node that is down is opened again.
    Restart(u32),
    /// `:restart meta`: the meta table is recovered.
    RestartMeta,
    /// `:elect P N`: the replica of this part on this node asks for votes; with `cancel` behind it, it will give up
    /// the chains that are fenced.
    Elect(u32, u32, bool),
    /// `:giveup C`: the chain of this client's open call is given up.
    GiveUp(u32),
    /// `:rounds n`: so many Rounds are made.
    Rounds(u32),
    /// `:addnode`: one more node.
    AddNode,
    /// `:balance`: the parts are balanced.
    Balance,
    /// `:balance step`: one stage of that.
    BalanceStep,
    /// `:move P A B`: this part moves from one node to another.
    Move(u32, u32, u32),
    /// `:parts`: where each part is.
    Parts,
    /// `:chaos SEED COUNT`: so many lines, drawn by this seed.
    Chaos(u64, u32),
}

/// Controls, in the order in which they are done.
pub type Controls = Listed<Control>;
