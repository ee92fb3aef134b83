//! Lists of edges.
ghost use Rattle.std.specs.Prelude.{◌≡◌, true, length, IfOk};
ghost use Rattle.std.specs.List.{list_all};
ghost use Rattle.graph_model.specs.Keys.{edge_cmp};
ghost use Rattle.graph_model.specs.Edges.{are_edges, is_once_each, is_positive};
ghost use Rattle.maps.specs.Keys.{has_key};

use crate::edge_id::EdgeId;
use lists::{Copied, Listed, NoMemory};
use std::alloc::Global;
use std::marker::Model;

/// The greatest number of edges in a list.
pub const MOST_EDGES: usize = 64;

/// Edges: 1 to 64, none twice, each of a positive type. Contracts see the list of them.
#[derive(Drop)]
pub struct Edges {
    list: Listed<EdgeId>,
}

impl Model for Edges {
    ghost use Rattle.std.specs.Prelude.{◌≡◌, true, List};
    ghost use Rattle.graph_model.specs.declared.edge_id.EdgeId.{EdgeId};

    ghost Value = { List EdgeId };

    ghost use Rattle.graph_model.specs.Edges.{are_edges};

    ghost view = { λ a. a.list };

    ghost invariant = { λ a. are_edges a.list ≡ true };
}

impl Edges {
    /// These edges.
    pub fn new(list: Listed<EdgeId>) -> Edges
        requires { are_edges list ≡ true }
        ensures { result ≡ list }
    {
        Edges { list }
    }

    /// The edges, as a slice.
    pub fn as_slice(&self) -> &[EdgeId]
        ensures list { result.now ≡ self.now }
        ensures edges { are_edges self.now ≡ true }
    {
        self.list.as_slice()
    }

    /// The number of edges.
    pub fn len(&self) -> usize
        ensures len { result ≡ length self.now }
        ensures edges { are_edges self.now ≡ true }
    {
        self.list.len()
    }

    /// An equal list. Refused for want of memory alone.
    pub fn copy(&self, alloc: Global) -> Result<Edges, NoMemory>
        ensures { IfOk result (λ list. list ≡ self.now) }
    {
        Ok(Edges {
            list: self.list.copy(alloc)?,
        })
    }
}

/// Whether these are 1 to 64 edges, none twice, each of a positive type.
pub fn are_edges(edges: &[EdgeId]) -> bool
    ensures { result ≡ are_edges edges.now }
{
    if edges.len() < 1 {
        return false;
    }
    if edges.len() > MOST_EDGES {
        return false;
    }
    if !is_once_each(edges) {
        return false;
    }
    are_positive(edges)
}

fn are_positive(edges: &[EdgeId]) -> bool
    ensures { result ≡ list_all is_positive edges.now }
{
    for edge in edges {
        if edge.etype <= 0 {
            return false;
        }
    }
    true
}

fn is_once_each(edges: &[EdgeId]) -> bool
    ensures { result ≡ is_once_each edges.now }
{
    for (i, edge) in edges.iter().enumerate() {
        if has_edge(edge, &edges[i + 1..]) {
            return false;
        }
    }
    true
}

/// Whether the edge stands in the list.
fn has_edge(edge: &EdgeId, edges: &[EdgeId]) -> bool
    ensures { result ≡ has_key edge_cmp edge.now edges.now }
{
    for other in edges {
        if edge.equals(other) {
            return true;
        }
    }
    false
}
