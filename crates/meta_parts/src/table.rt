//! The table, and the bodies that change it.
use lists::Listed;
use part_keys::VidKind;

/// Numbers of nodes, rising.
pub type Nodes = Listed<u32>;

/// A peer of a part, and the node that holds it.
#[derive(Clone, Copy)]
pub struct PeerRow {
    pub peer: u32,
    pub node: u32,
}

/// A part: its peers, by rising id, and the id that its next peer gets.
#[derive(Drop)]
pub struct PartRow {
    pub part: u32,
    pub peers: Listed<PeerRow>,
    pub next_peer: u32,
}

/// The stages of a move, in their order.
#[derive(Clone, Copy)]
pub enum Stage {
    ChangeLeader,
    AddPart,
    AddLearner,
    CatchUp,
    MemberAdd,
    MemberRemove,
    UpdateMeta,
    RemovePart,
    End,
}

/// A move of a part from one node to another: the peer that goes, the one that comes, and the stage. It is open until its
/// stage is `End`.
#[derive(Clone, Copy)]
pub struct TaskRow {
    pub part: u32,
    pub from: u32,
    pub to: u32,
    pub old_peer: u32,
    pub new_peer: u32,
    pub stage: Stage,
}

/// The parts, by number; the nodes; all moves that were ever opened, in order; how many peers each part began with; and the
/// kind of the space's ids.
#[derive(Drop)]
pub struct PartTable {
    pub rows: Listed<PartRow>,
    pub nodes: Nodes,
    pub tasks: Listed<TaskRow>,
    pub factor: u32,
    pub ids: VidKind,
}

/// What is written.
#[derive(Drop)]
pub enum MetaBody {
    /// So many parts of so many peers each, over these nodes, for ids of this kind.
    Allocate(u32, u32, Nodes, VidKind),
    /// A node more.
    Node(u32),
    /// A move of the part from one node to another, with the id of the new peer.
    Task(u32, u32, u32, u32),
    /// The open move of the part has this stage.
    Stage(u32, Stage),
}
