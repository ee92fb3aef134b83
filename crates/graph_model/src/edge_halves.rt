//! Lists of edges, each with a half.
ghost use Rattle.std.specs.Prelude.{◌≡◌, true, map, length, IfOk};
ghost use Rattle.graph_model.specs.Edges.{are_edges, edges_in};
ghost use Rattle.graph_model.specs.declared.half.Half.TheVariants.{Absent};

use crate::edge_id::EdgeId;
use crate::edges::Edges;
use crate::half::{Half, Halves};
use lists::{Listed, NoMemory};
use std::alloc::Global;
use std::marker::Model;

/// Edges, each with the half that it is to have: 1 to 64, no edge twice, each of a positive type. Contracts see the list
/// of them.
#[derive(Drop)]
pub struct EdgeHalves {
    list: Listed<(EdgeId, Half)>,
}

impl Model for EdgeHalves {
    ghost use Rattle.std.specs.Prelude.{◌≡◌, true, List};
    ghost use Rattle.graph_model.specs.declared.edge_id.EdgeId.{EdgeId};
    ghost use Rattle.graph_model.specs.declared.half.Half.{Half};

    ghost Value = { List (EdgeId × Half) };

    ghost use Rattle.graph_model.specs.Edges.{are_edges, edges_in};

    ghost view = { λ a. a.list };

    ghost invariant = { λ a. are_edges (edges_in a.list) ≡ true };
}

impl EdgeHalves {
    /// These edges with these halves.
    pub fn new(list: Listed<(EdgeId, Half)>) -> EdgeHalves
        requires { are_edges (edges_in list) ≡ true }
        ensures { result ≡ list }
    {
        EdgeHalves { list }
    }

    /// These edges, each with the half Absent. Refused for want of memory alone.
    #[tactic(auto, using(crate::proofs::EdgeLemmas::edges_removed))]
    pub fn removed(alloc: Global, edges: &Edges) -> Result<EdgeHalves, NoMemory>
        ensures { IfOk result (λ list. list ≡ map (λ e. (e, Absent)) edges.now) }
    {
        let list = gone(alloc, edges.as_slice())?;
        Ok(EdgeHalves { list })
    }

    /// The edges with their halves, as a slice.
    pub fn as_slice(&self) -> &[(EdgeId, Half)]
        ensures list { result.now ≡ self.now }
        ensures edges { are_edges (edges_in self.now) ≡ true }
    {
        self.list.as_slice()
    }

    /// The number of edges.
    pub fn len(&self) -> usize
        ensures len { result ≡ length self.now }
        ensures edges { are_edges (edges_in self.now) ≡ true }
    {
        self.list.len()
    }

    /// The edges. Refused for want of memory alone.
    pub fn edges(&self, alloc: Global) -> Result<Edges, NoMemory>
        ensures { IfOk result (λ edges. edges ≡ edges_in self.now) }
    {
        let mut made = Listed::new(alloc);
        for half in self.list.as_slice() {
            made.push(half.0)?;
        }
        Ok(Edges::new(made))
    }

    /// An equal list. Refused for want of memory alone.
    pub fn copy(&self, alloc: Global) -> Result<EdgeHalves, NoMemory>
        ensures { IfOk result (λ list. list ≡ self.now) }
    {
        Ok(EdgeHalves {
            list: self.list.copy(alloc)?,
        })
    }
}

/// These edges, each with the half Absent.
pub(crate) fn gone(alloc: Global, edges: &[EdgeId]) -> Result<Halves, NoMemory>
    ensures { IfOk result (λ list. list ≡ map (λ e. (e, Absent)) edges.now) }
{
    let mut made = Listed::new(alloc);
    for edge in edges {
        made.push((*edge, Half::Absent))?;
    }
    Ok(made)
}
