//! What a part decides.
ghost use Rattle.std.specs.Prelude.{◌≡◌, IfOk};

use first_graph::{CallId, EdgeId, Half, Op, Query};
use lists::{Copied, NoMemory};
use std::alloc::Global;

/// What a part decides, by an entry of its log.
#[derive(Drop)]
pub enum PartEntry {
    /// A call begins a chain that gives this half to an edge. The flag is IF NOT EXISTS.
    Prime(CallId, EdgeId, Half, bool),
    /// The source takes the half of this chain, which is settled.
    Local(EdgeId, u64),
    /// The source takes the half of this chain, which stays open as a double one.
    Double(EdgeId, u64),
    /// This double chain is settled.
    Close(EdgeId, u64),
    /// This chain is cancelled.
    Abort(EdgeId, u64),
    /// The chain of a source part, in a term of it, brings this half to the destination.
    Remote(u32, u64, EdgeId, u64, Half),
    /// A source part, in a term of it, asks whether this chain's half came, and bars older terms.
    Fence(u32, u64, EdgeId, u64),
    /// A call changes a vertex.
    Vertex(CallId, Op),
    /// A call asks.
    Read(CallId, Query),
}

impl PartEntry {
    /// An equal entry. Refused for want of memory alone.
    pub fn copy(&self, alloc: Global) -> Result<Self, NoMemory>
        ensures { IfOk result (λ made. made ≡ self.now) }
    {
        Ok(match self {
            PartEntry::Prime(id, edge, half, absent) => {
                PartEntry::Prime(*id, *edge, half.copy(alloc)?, *absent)
            }
            PartEntry::Local(edge, v) => PartEntry::Local(*edge, *v),
            PartEntry::Double(edge, v) => PartEntry::Double(*edge, *v),
            PartEntry::Close(edge, v) => PartEntry::Close(*edge, *v),
            PartEntry::Abort(edge, v) => PartEntry::Abort(*edge, *v),
            PartEntry::Remote(source, term, edge, v, half) => {
                PartEntry::Remote(*source, *term, *edge, *v, half.copy(alloc)?)
            }
            PartEntry::Fence(source, term, edge, v) => {
                PartEntry::Fence(*source, *term, *edge, *v)
            }
            PartEntry::Vertex(id, op) => PartEntry::Vertex(*id, op.copy(alloc)?),
            PartEntry::Read(id, query) => PartEntry::Read(*id, query.copy(alloc)?),
        })
    }
}

impl Copied for PartEntry {
    fn copied(&self, alloc: Global) -> Result<Self, NoMemory> {
        self.copy(alloc)
    }
}
