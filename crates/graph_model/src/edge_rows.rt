//! Lists of edges, each with a row.
ghost use Rattle.std.specs.Prelude.{◌≡◌, true, length, IfOk};
ghost use Rattle.graph_model.specs.Edges.{are_edges, edges_among};

use crate::edge_id::EdgeId;
use crate::val::Row;
use lists::{Listed, NoMemory};
use std::alloc::Global;
use std::marker::Model;

/// Edges, each with the properties that it is to have: 1 to 64, no edge twice, each of a positive type. Contracts see the
/// list of them.
#[derive(Drop)]
pub struct EdgeRows {
    list: Listed<(EdgeId, Row)>,
}

impl Model for EdgeRows {
    ghost use Rattle.std.specs.Prelude.{◌≡◌, true, List};
    ghost use Rattle.std.specs.Coded.{coded×, coded_list};
    ghost use Rattle.graph_model.specs.declared.edge_id.EdgeId.{EdgeId};
    ghost use Rattle.graph_model.specs.declared.val.Val.{Val};

    ghost Value = { List (EdgeId × List Val) };

    ghost use Rattle.graph_model.specs.Edges.{are_edges, edges_among};

    ghost view = { λ a. a.list };

    ghost invariant = { λ a. are_edges (edges_among a.list) ≡ true };
}

impl EdgeRows {
    /// These edges with these rows.
    pub fn new(list: Listed<(EdgeId, Row)>) -> EdgeRows
        requires { are_edges (edges_among list) ≡ true }
        ensures { result ≡ list }
    {
        EdgeRows { list }
    }

    /// The edges with their rows, as a slice.
    pub fn as_slice(&self) -> &[(EdgeId, Row)]
        ensures list { result.now ≡ self.now }
        ensures edges { are_edges (edges_among self.now) ≡ true }
    {
        self.list.as_slice()
    }

    /// The number of edges.
    pub fn len(&self) -> usize
        ensures len { result ≡ length self.now }
        ensures edges { are_edges (edges_among self.now) ≡ true }
    {
        self.list.len()
    }

    /// An equal list. Refused for want of memory alone.
    pub fn copy(&self, alloc: Global) -> Result<EdgeRows, NoMemory>
        ensures { IfOk result (λ list. list ≡ self.now) }
    {
        Ok(EdgeRows {
            list: self.list.copy(alloc)?,
        })
    }
}
