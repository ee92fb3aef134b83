//! The table of parts, nodes and tasks, and what each body that is written makes of it.
//!
//! `table.rt` has the types, `specs/Table` the rules: the table of so many nodes at boot; of each of the four bodies when it
//! may be written, one row a body, and the table behind it; and what the world asks of a table: the peers of a part, in
//! order, whether a peer has its place on a node, and the configuration with which a part's first peers begin.
//!
//! A part's first configuration and the number of parts are those of the last allocate body: a task replaces a peer in a
//! row, and neither of the two.
//!
//! To believe: `specs/Table`, which is the whole of it; `specs/Worked` has bodies worked by hand. Below is `part_keys`, for the kind of ids; above is `world_model`,
//! whose Meta events are these bodies.
#![tactic(auto)]

mod laws;
mod table;

pub use laws::worked_moves;
pub use table::{MetaBody, Nodes, PartRow, PartTable, PeerRow, Stage, TaskRow};
