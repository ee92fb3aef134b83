//! What is read of a part for the edges of an entry.
ghost use Rattle.std.specs.Prelude.{◌≡◌, ◌<◌, IfOk};
ghost use Rattle.part_keys.specs.Routing.{remote_of};

use crate::state::PartState;
use graph_model::{CallId, EdgeHalves, EdgeId, Half, Halves};
use lists::{Listed, NoMemory};
use part_keys::part_of;
use std::alloc::Global;

/// The part in which the edges end.
pub(crate) fn remote_of(parts: u32, list: &[(EdgeId, Half)]) -> u32
    requires { 0 < parts }
    ensures { result ≡ remote_of parts list.now }
{
    match list.first() {
        Some(half) => part_of(half.0.dst, parts),
        None => 0,
    }
}

impl PartState {
    ghost use Rattle.std.specs.Prelude.{◌≡◌, ◌≢◌, [], Bool, true, false, not, ◌&&◌, IfOk};
    ghost use Rattle.std.specs.List.{filter, list_any};
    ghost use Rattle.std.specs.Option.{option_map};
    ghost use Rattle.graph_model.specs.Edges.{edges_in};
    ghost use Rattle.maps.specs.Lists.{has_all, missing};
    ghost use Rattle.part_rules.specs.Part.{is_fresh, all_written, chain_on_any};
    ghost use Rattle.part_fold.specs.Standing.{id_of};
    ghost use Rattle.part_fold.specs.State.{part_of};

    // The call of the chain on the first of these edges that has one.
    pub(crate) fn call_on_any(&self, list: &[(EdgeId, Half)]) -> Option<CallId>
        ensures { result ≡ option_map id_of (chain_on_any (part_of self.now) (edges_in list.now)) }
    {
        for half in list {
            if let Some(id) = self.chains.on(&half.0) {
                return Some(id);
            }
        }
        None
    }

    // Whether the out-half of each of these edges is here.
    pub(crate) fn has_all(&self, list: &[(EdgeId, Half)]) -> bool
        ensures { result ≡ has_all (part_of self.now).out (edges_in list.now) }
    {
        for half in list {
            if !self.out.has(&half.0) {
                return false;
            }
        }
        true
    }

    // Those whose out-half isn't here.
    pub(crate) fn missing(&self, alloc: Global, list: &[(EdgeId, Half)]) -> Result<Halves, NoMemory>
        ensures { IfOk result (λ made. made ≡ missing (part_of self.now).out list.now) }
    {
        let mut made = Listed::new(alloc);
        for half in list {
            if !self.out.has(&half.0) {
                made.push((half.0, half.1.copy(alloc)?))?;
            }
        }
        Ok(made)
    }

    // Those whose in-half neither chain `v` nor a later one wrote.
    pub(crate) fn fresh_of(
        &self,
        alloc: Global,
        v: u64,
        list: &[(EdgeId, Half)],
    ) -> Result<Halves, NoMemory>
        ensures { IfOk result (λ made. made ≡ filter (is_fresh (part_of self.now) v) list.now) }
    {
        let mut made = Listed::new(alloc);
        for half in list {
            if self.inn.number(half.0) < v {
                made.push((half.0, half.1.copy(alloc)?))?;
            }
        }
        Ok(made)
    }

    // Whether chain `v` writes one of these in-halves.
    pub(crate) fn is_any_fresh(&self, v: u64, list: &[(EdgeId, Half)]) -> bool
        ensures { result ≡ list_any (is_fresh (part_of self.now) v) list.now }
    {
        for half in list {
            if self.inn.number(half.0) < v {
                return true;
            }
        }
        false
    }

    // Whether chain `v`, or a later one, wrote the in-half of each of the edges.
    pub(crate) fn all_written(&self, v: u64, edges: &[EdgeId]) -> bool
        ensures { result ≡ all_written (part_of self.now) v edges.now }
    {
        for edge in edges {
            if self.inn.number(*edge) < v {
                return false;
            }
        }
        true
    }
}
