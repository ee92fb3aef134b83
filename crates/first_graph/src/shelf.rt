//! What a graph contains at a moment.
ghost use Rattle.std.specs.Prelude.{◌≡◌, OnOk, OnErr, IfOk};

use crate::change::Change;
use crate::edge_id::{EdgeId, Vid};
use crate::finding::{push_found, push_in, push_out};
use crate::found::View;
use crate::half::Half;
use crate::in_key::InKey;
use crate::query::Query;
use crate::tag_key::TagKey;
use crate::tags::remove_tags;
use crate::val::Row;
use lists::NoMemory;
use std::alloc::Global;
use std::collections::BTreeMap;
use std::marker::Model;

/// The tags' rows and the halves, at a moment.
#[derive(Drop)]
pub struct Shelf {
    verts: BTreeMap<TagKey, Row>,
    out: BTreeMap<EdgeId, Row>,
    inn: BTreeMap<InKey, Row>,
}

impl Model for Shelf {
    ghost use Rattle.std.specs.FinMap as map;
    ghost use Rattle.first_graph.specs.Contents.{Contents};
    ghost use Rattle.first_graph.specs.contracts.val.Val as val;
    ghost use Rattle.first_graph.specs.contracts.edge_id.EdgeId as edge;
    ghost use Rattle.first_graph.specs.contracts.in_key.InKey as in_edge;
    ghost use Rattle.first_graph.specs.contracts.tag_key.TagKey as tag;
    ghost use Rattle.first_graph.specs.Contents.{contents_code};

    ghost Value = { Contents };

    ghost coded = { contents_code tag.the_row.coded edge.the_row.coded in_edge.the_row.coded val.the_row.coded };

    ghost view = { λ a. record { verts = map.from_entries a.verts.entries; out = map.from_entries a.out.entries; inn = map.from_entries a.inn.entries } };
}

impl Shelf {
    ghost use Rattle.std.specs.Prelude.{◌≡◌, OnOk, OnErr, IfOk, IsTrue, ◌↔◌, is_some};
    ghost use Rattle.std.specs.FinMap as map;
    ghost use Rattle.first_graph.specs.Contents.{nothing, changed, after_all};
    ghost use Rattle.first_graph.specs.Views.{view_of};
    ghost use Rattle.first_graph.specs.declared.change.Change.TheVariants.{Tag, Gone, Out, In};
    ghost use Rattle.first_graph.specs.declared.half.Half.TheVariants.{Absent, Here};

    pub fn new(alloc: Global) -> Self
        ensures { result ≡ nothing }
    {
        Shelf {
            verts: BTreeMap::new(alloc),
            out: BTreeMap::new(alloc),
            inn: BTreeMap::new(alloc),
        }
    }

    pub fn set_tag(&mut self, key: TagKey, row: Row) -> Result<(), NoMemory>
        ensures ok { OnOk result (self.new ≡ changed self.old (Tag key row)) }
        ensures err { OnErr result (self.new ≡ self.old) }
    {
        self.verts.insert(key, row)?;
        Ok(())
    }

    pub fn set_out(&mut self, e: EdgeId, half: Half) -> Result<(), NoMemory>
        ensures ok { OnOk result (self.new ≡ changed self.old (Out e half)) }
        ensures err { OnErr result (self.new ≡ self.old) }
    {
        match half {
            Half::Absent => {
                self.out.remove(&e);
                Ok(())
            }
            Half::Here(row) => {
                self.out.insert(e, row)?;
                Ok(())
            }
        }
    }

    pub fn set_in(&mut self, e: EdgeId, half: Half) -> Result<(), NoMemory>
        ensures ok { OnOk result (self.new ≡ changed self.old (In e half)) }
        ensures err { OnErr result (self.new ≡ self.old) }
    {
        let key = InKey::of(e);
        match half {
            Half::Absent => {
                self.inn.remove(&key);
                Ok(())
            }
            Half::Here(row) => {
                self.inn.insert(key, row)?;
                Ok(())
            }
        }
    }

    /// Takes all tags of a vertex away, in time O(log n) for each of them.
    pub fn remove_vertex(&mut self, v: Vid)
        ensures { self.new ≡ changed self.old (Gone v) }
    {
        remove_tags(&mut self.verts, &v);
    }

    pub fn has_out(&self, e: EdgeId) -> bool
        ensures { result ≡ is_some (map.get self.now.out e) }
    {
        self.out.contains_key(&e)
    }

    pub fn has_tag(&self, key: TagKey) -> bool
        ensures { result ≡ is_some (map.get self.now.verts key) }
    {
        self.verts.contains_key(&key)
    }

    /// Makes a change again.
    pub fn apply(&mut self, alloc: Global, change: &Change) -> Result<(), NoMemory>
        ensures ok { OnOk result (self.new ≡ changed self.old change.now) }
        ensures err { OnErr result (self.new ≡ self.old) }
    {
        match change {
            Change::Nothing => Ok(()),
            Change::Tag(key, row) => self.set_tag(*key, row.copy(alloc)?),
            Change::Gone(v) => {
                self.remove_vertex(*v);
                Ok(())
            }
            Change::Out(e, half) => self.set_out(*e, half.copy(alloc)?),
            Change::In(e, half) => self.set_in(*e, half.copy(alloc)?),
        }
    }

    /// What the changes leave, one after another.
    pub fn after(alloc: Global, changes: &[Change]) -> Result<Self, NoMemory>
        ensures { IfOk result (λ made. made ≡ after_all nothing changes.now) }
    {
        let mut made = Shelf::new(alloc);
        for change in changes {
            made.apply(alloc, change)?;
        }
        Ok(made)
    }

    /// What a query finds.
    #[tactic(auto, using(crate::proofs::MapLemmas::get_made, crate::proofs::KeyLemmas::edges_total, crate::proofs::KeyLemmas::tags_total))]
    pub fn view(&self, alloc: Global, query: &Query) -> Result<View, NoMemory>
        ensures { IfOk result (λ view. view ≡ view_of query.now self.now) }
    {
        let mut view = View::new(alloc);
        match query {
            Query::Tag(v, t) => {
                let key = TagKey::of(v, t);
                match self.verts.get(&key) {
                    Some(row) => {
                        push_found(&mut view, alloc, None, false, row)?;
                        Ok(view)
                    }
                    None => Ok(view),
                }
            }
            Query::Edge(e) => {
                match self.out.get(e) {
                    Some(row) => {
                        push_found(&mut view, alloc, Some(*e), false, row)?;
                        Ok(view)
                    }
                    None => Ok(view),
                }
            }
            Query::Out(v, types) => {
                push_out(&mut view, alloc, &self.out, v, types)?;
                Ok(view)
            }
            Query::In(v, types) => {
                push_in(&mut view, alloc, &self.inn, v, types)?;
                Ok(view)
            }
            Query::Both(v, types) => {
                push_in(&mut view, alloc, &self.inn, v, types)?;
                push_out(&mut view, alloc, &self.out, v, types)?;
                Ok(view)
            }
        }
    }
}
