//! What a graph contains at a moment.
ghost use Rattle.std.specs.Prelude.{◌≡◌, IfOk, map};
ghost use Rattle.graph_model.specs.declared.half.Half.TheVariants.{Absent, Here};

use crate::change::Change;
use crate::edge_halves::gone;
use crate::edge_id::EdgeId;
use crate::finding::{push_found, push_in, push_out};
use crate::found::View;
use crate::half::{Half, Halves};
use crate::in_key::InKey;
use crate::op::Op;
use crate::query::Query;
use crate::tag_key::TagKey;
use crate::tags::remove_tags;
use crate::types::Types;
use crate::val::Row;
use crate::vid::Vid;
use crate::{in_places, out_places};
use lists::{Listed, NoMemory};
use std::alloc::Global;
use std::collections::BTreeMap;
use std::marker::Model;

/// The tags' rows and the halves, at a moment. An edge may have a place with no row in it: it is as if it had none.
#[derive(Drop)]
pub struct Shelf {
    verts: BTreeMap<TagKey, Row>,
    out: BTreeMap<EdgeId, Option<Row>>,
    inn: BTreeMap<InKey, Option<Row>>,
}

impl Model for Shelf {
    ghost use Rattle.std.specs.FinMap as map;
    ghost use Rattle.std.specs.Coded.{coded_list};
    ghost use Rattle.maps.specs.Lists.{with_all};
    ghost use Rattle.graph_model.specs.Contents.{Contents};
    ghost use Rattle.graph_model.specs.contracts.val.Val as val;
    ghost use Rattle.graph_model.specs.contracts.edge_id.EdgeId as edge;
    ghost use Rattle.graph_model.specs.contracts.in_key.InKey as in_edge;
    ghost use Rattle.graph_model.specs.contracts.tag_key.TagKey as tag;
    ghost use Rattle.graph_model.specs.Changes.{contents_code};

    ghost Value = { Contents };

    ghost coded = { contents_code (map.code tag.the_row.coded (coded_list val.the_row.coded)) (map.code edge.the_row.coded (coded_list val.the_row.coded)) (map.code in_edge.the_row.coded (coded_list val.the_row.coded)) };

    ghost view = { λ a. record { verts = map.from_entries a.verts.entries; out = with_all map.empty a.out.entries; inn = with_all map.empty a.inn.entries } };
}

impl Shelf {
    ghost use Rattle.std.specs.Prelude.{◌≡◌, ◌++◌, None, Some, OnOk, OnErr, IfOk, is_some};
    ghost use Rattle.std.specs.List.{filter_map};
    ghost use Rattle.graph_model.specs.Views.{row_alone, found_out, found_in, view_of};
    ghost use Rattle.std.specs.Prelude as prelude;
    ghost use Rattle.std.specs.FinMap as map;
    ghost use Rattle.maps.specs.Lists.{has_all, missing};
    ghost use Rattle.graph_model.specs.Contents.{nothing, out_written, in_written, tags_removed};
    ghost use Rattle.graph_model.specs.Lookups.{takes_of};
    ghost use Rattle.graph_model.specs.Changes.{changed};
    ghost use Rattle.graph_model.specs.declared.half.Half.TheVariants.{Absent, Here};

    /// No tag, and no edge.
    pub fn new(alloc: Global) -> Self
        ensures { result ≡ nothing }
    {
        Shelf {
            verts: BTreeMap::new(alloc),
            out: BTreeMap::new(alloc),
            inn: BTreeMap::new(alloc),
        }
    }

    /// Whether the tag has a row.
    pub fn has_tag(&self, key: &TagKey) -> bool
        ensures { result ≡ is_some (map.get self.now.verts key.now) }
    {
        self.verts.contains_key(key)
    }

    /// The tag has this row. Refused for want of memory alone.
    pub fn set_tag(&mut self, key: TagKey, row: Row) -> Result<(), NoMemory>
        ensures ok { OnOk result (self.new ≡ record self.old { verts = map.insert self.old.verts key row }) }
        ensures err { OnErr result (self.new ≡ self.old) }
    {
        self.verts.insert(key, row)?;
        Ok(())
    }

    /// Takes all tags of a vertex away, in time O(log n) a tag of it.
    pub fn remove_vertex(&mut self, v: &Vid)
        ensures { self.new ≡ tags_removed self.old v.now }
    {
        remove_tags(&mut self.verts, v);
    }

    /// Each edge has its half as out-half. Refused for want of memory alone.
    pub fn write_out(&mut self, alloc: Global, list: &Halves) -> Result<(), NoMemory>
        ensures ok { OnOk result (self.new ≡ out_written self.old list.now) }
        ensures err { OnErr result (self.new ≡ self.old) }
    {
        out_places::write_all(&mut self.out, alloc, list.as_slice())?;
        Ok(())
    }

    /// Each edge has its half as in-half. Refused for want of memory alone.
    pub fn write_in(&mut self, alloc: Global, list: &Halves) -> Result<(), NoMemory>
        ensures ok { OnOk result (self.new ≡ in_written self.old list.now) }
        ensures err { OnErr result (self.new ≡ self.old) }
    {
        in_places::write_all(&mut self.inn, alloc, list.as_slice())?;
        Ok(())
    }

    /// Makes a change again. Refused for want of memory alone.
    pub fn apply(&mut self, alloc: Global, change: &Change) -> Result<(), NoMemory>
        ensures ok { OnOk result (self.new ≡ changed self.old change.now) }
        ensures err { OnErr result (self.new ≡ self.old) }
    {
        match change {
            Change::Nothing => Ok(()),
            Change::Tag(key, row) => self.set_tag(*key, row.copy(alloc)?),
            Change::Gone(v) => {
                self.remove_vertex(v);
                Ok(())
            }
            Change::Out(list) => self.write_out(alloc, list),
            Change::In(list) => self.write_in(alloc, list),
        }
    }

    fn push_tag(&self, view: &mut View, alloc: Global, v: &Vid, t: &u32) -> Result<(), NoMemory>
        ensures { OnOk result (view.new ≡ view.old ++ row_alone None (map.get self.now.verts (record { vid = v.now; tag = t.now }))) }
    {
        let key = TagKey::of(v, t);
        let Some(row) = self.verts.get(&key) else {
            return Ok(());
        };
        push_found(view, alloc, None, false, row)?;
        Ok(())
    }

    fn push_edge(&self, view: &mut View, alloc: Global, e: &EdgeId) -> Result<(), NoMemory>
        ensures { OnOk result (view.new ≡ view.old ++ row_alone (Some e.now) (map.get self.now.out e.now)) }
    {
        let Some(place) = self.out.get(e) else {
            return Ok(());
        };
        let Some(row) = place else {
            return Ok(());
        };
        push_found(view, alloc, Some(*e), false, row)?;
        Ok(())
    }

    fn push_outs(
        &self,
        view: &mut View,
        alloc: Global,
        v: &Vid,
        types: &Types,
    ) -> Result<(), NoMemory>
        ensures { OnOk result (view.new ≡ view.old ++ filter_map (found_out v.now types.now) (map.entries self.now.out)) }
    {
        let _count = self.out.len();
        push_out(view, alloc, &self.out, v, types)?;
        Ok(())
    }

    fn push_ins(
        &self,
        view: &mut View,
        alloc: Global,
        v: &Vid,
        types: &Types,
    ) -> Result<(), NoMemory>
        ensures { OnOk result (view.new ≡ view.old ++ filter_map (found_in v.now types.now) (map.entries self.now.inn)) }
    {
        let _count = self.inn.len();
        push_in(view, alloc, &self.inn, v, types)?;
        Ok(())
    }

    /// The in-edges, then the out-edges.
    fn push_both(
        &self,
        view: &mut View,
        alloc: Global,
        v: &Vid,
        types: &Types,
    ) -> Result<(), NoMemory>
        ensures { OnOk result (view.new ≡ view.old ++ filter_map (found_in v.now types.now) (map.entries self.now.inn) ++ filter_map (found_out v.now types.now) (map.entries self.now.out)) }
    {
        self.push_ins(view, alloc, v, types)?;
        self.push_outs(view, alloc, v, types)?;
        Ok(())
    }

    /// What a query finds. Refused for want of memory alone.
    pub fn view(&self, alloc: Global, query: &Query) -> Result<View, NoMemory>
        ensures { IfOk result (λ view. view ≡ view_of query.now self.now) }
    {
        let mut view = View::new(alloc);
        match query {
            Query::Tag(v, t) => {
                self.push_tag(&mut view, alloc, v, t)?;
                Ok(view)
            }
            Query::Edge(e) => {
                self.push_edge(&mut view, alloc, e)?;
                Ok(view)
            }
            Query::Out(v, types) => {
                self.push_outs(&mut view, alloc, v, types)?;
                Ok(view)
            }
            Query::In(v, types) => {
                self.push_ins(&mut view, alloc, v, types)?;
                Ok(view)
            }
            Query::Both(v, types) => {
                self.push_both(&mut view, alloc, v, types)?;
                Ok(view)
            }
        }
    }

    /// Whether the out-half of the edge is there.
    pub fn has_out(&self, edge: &EdgeId) -> bool
        ensures { result ≡ is_some (map.get self.now.out edge.now) }
    {
        let Some(place) = self.out.get(edge) else {
            return false;
        };
        place.is_some()
    }

    /// Whether the out-half of each of these edges is there.
    pub fn has_all_out(&self, edges: &[EdgeId]) -> bool
        ensures { result ≡ has_all self.now.out edges.now }
    {
        for edge in edges {
            if !self.has_out(edge) {
                return false;
            }
        }
        true
    }

    /// Those rows whose edge's out-half isn't there, as halves. Refused for want of memory alone.
    fn missing(&self, alloc: Global, rows: &[(EdgeId, Row)]) -> Result<Halves, NoMemory>
        ensures { IfOk result (λ list. list ≡ missing self.now.out (prelude.map (λ x. (x.0, Here x.1)) rows.now)) }
    {
        let mut made = Listed::new(alloc);
        for row in rows {
            if !self.has_out(&row.0) {
                made.push((row.0, Half::Here(row.1.copy(alloc)?)))?;
            }
        }
        Ok(made)
    }

    /// The edges that a chain for this op takes, with their new halves. Refused for want of memory alone.
    pub fn takes(&self, alloc: Global, op: &Op) -> Result<Halves, NoMemory>
        ensures { IfOk result (λ list. list ≡ takes_of self.now op.now) }
    {
        match op {
            Op::PutEdges(rows, absent) => {
                if *absent {
                    let list = self.missing(alloc, rows.as_slice())?;
                    return Ok(list);
                }
                let list = here(alloc, rows.as_slice())?;
                Ok(list)
            }
            Op::DelEdges(edges) => {
                let list = gone(alloc, edges.as_slice())?;
                Ok(list)
            }
            _ => Ok(Listed::new(alloc)),
        }
    }
}

fn here(alloc: Global, rows: &[(EdgeId, Row)]) -> Result<Halves, NoMemory>
    ensures { IfOk result (λ list. list ≡ map (λ x. (x.0, Here x.1)) rows.now) }
{
    let mut made = Listed::new(alloc);
    for row in rows {
        made.push((row.0, Half::Here(row.1.copy(alloc)?)))?;
    }
    Ok(made)
}
