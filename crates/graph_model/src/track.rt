//! The contents of a graph, and how they came about.
ghost use Rattle.std.specs.Prelude.{◌≡◌, ◌≤◌, ◌<◌, ◌^◌, ◌++◌, ◌∷◌, [], OnOk, IfOk, take, length, vec_len, vec_capacity};
ghost use Rattle.graph_model.specs.Contents.{nothing};
ghost use Rattle.graph_model.specs.Changes.{after_all};
ghost use Rattle.graph_model.specs.Marks.{AreMarked};
ghost use Rattle.graph_model.specs.Alike.{AlikeAt};

use crate::change::Change;
use crate::found::View;
use crate::half::Halves;
use crate::mark::Mark;
use crate::marks::{mark_at, mark_ends, next_mark};
use crate::query::Query;
use crate::shelf::Shelf;
use crate::tag_key::TagKey;
use crate::val::Row;
use crate::vid::Vid;
use lists::NoMemory;
use std::alloc::Global;
use std::collections::BTreeMap;
use std::marker::Model;

/// The contents now, and what each step so far changed of them; beside the changes an index: of each vertex, the steps
/// that changed something of it. A step may stand in the index too that changed nothing.
#[derive(Drop)]
pub struct Track {
    shelf: Shelf,
    changes: Vec<Change>,
    marks: BTreeMap<Mark, ()>,
}

impl Model for Track {
    ghost use Rattle.std.specs.Prelude.{◌≡◌, ◌-◌, vec_len, vec_capacity};
    ghost use Rattle.graph_model.specs.Contents.{nothing};
    ghost use Rattle.graph_model.specs.Changes.{Dated, dated_code, after_all, befores};
    ghost use Rattle.graph_model.specs.contracts.shelf.Shelf as shelves;
    ghost use Rattle.graph_model.specs.Marks.{AreMarked};

    ghost Value = { Dated };

    ghost coded = { dated_code shelves.the_row.coded };

    ghost view = { λ a. record { contents = a.shelf; past = befores nothing a.changes.items; spare = vec_capacity a.changes - vec_len a.changes } };

    ghost invariant = { λ a. record {
      shelf : a.shelf ≡ after_all nothing a.changes.items;
      marked : AreMarked a.changes.items a.marks.entries;
    } };
}

impl Track {
    ghost use Rattle.std.specs.Prelude.{◌≡◌, ◌<◌, ◌^◌, ◌++◌, ◌∷◌, [], OnOk, OnErr, IfOk, length};
    ghost use Rattle.graph_model.specs.Contents.{nothing, out_written, in_written, tags_removed};
    ghost use Rattle.graph_model.specs.State.{at_moment};
    ghost use Rattle.graph_model.specs.Views.{view_of};
    ghost use Rattle.graph_model.specs.Changes.{changed};
    ghost use Rattle.graph_model.specs.declared.change.Change.TheVariants.{Tag};

    /// No tag and no edge, and no step yet.
    pub fn new(alloc: Global) -> Track
        ensures contents { result.contents ≡ nothing }
        ensures past { result.past ≡ [] }
    {
        Track {
            shelf: Shelf::new(alloc),
            changes: Vec::new(alloc),
            marks: BTreeMap::new(alloc),
        }
    }

    /// The contents now.
    pub fn shelf(&self) -> &Shelf
        ensures { result.now ≡ self.now.contents }
    {
        &self.shelf
    }

    /// How many steps were taken.
    pub fn now(&self) -> u64
        ensures { result ≡ length self.now.past }
    {
        count(&self.changes)
    }

    /// What a query finds in the contents after so many steps: now at once, and else in what those steps made of its
    /// vertex. Refused for want of memory alone.
    pub fn view_at(&self, alloc: Global, m: u64, query: &Query) -> Result<View, NoMemory>
        ensures { IfOk result (λ view. view ≡ view_of query.now (at_moment self.now.contents self.now.past m)) }
    {
        if m >= self.now() {
            let view = self.shelf.view(alloc, query)?;
            return Ok(view);
        }
        let then = made_again(
            alloc,
            self.changes.as_slice(),
            &self.marks,
            &query.vertex(),
            m,
        )?;
        let view = then.view(alloc, query)?;
        Ok(view)
    }

    /// Makes room for one more step. Refused for want of memory alone.
    pub fn reserve(&mut self) -> Result<(), NoMemory>
        ensures room { OnOk result (0 < self.new.spare) }
        ensures contents { self.new.contents ≡ self.old.contents }
        ensures past { self.new.past ≡ self.old.past }
        ensures fits { length self.old.past < 2 ^ 63 }
    {
        room(&mut self.changes)
    }

    /// A step that leaves the contents.
    pub fn note(&mut self)
        requires { 0 < self.old.spare }
        ensures contents { self.new.contents ≡ self.old.contents }
        ensures past { self.new.past ≡ self.old.past ++ self.old.contents ∷ [] }
    {
        add(&mut self.changes, Change::Nothing);
    }

    /// A step that writes these out-halves. Refused for want of memory alone, and then all is as before.
    pub fn write_out(&mut self, alloc: Global, list: Halves) -> Result<(), NoMemory>
        ensures contents { OnOk result (self.new.contents ≡ out_written self.old.contents list) }
        ensures past { OnOk result (self.new.past ≡ self.old.past ++ self.old.contents ∷ []) }
        ensures err_contents { OnErr result (self.new.contents ≡ self.old.contents) }
        ensures err_past { OnErr result (self.new.past ≡ self.old.past) }
    {
        let step = count(&self.changes);
        room(&mut self.changes)?;
        mark_ends(&mut self.marks, list.as_slice(), false, step)?;
        self.shelf.write_out(alloc, &list)?;
        add(&mut self.changes, Change::Out(list));
        Ok(())
    }

    /// A step that writes these in-halves. Refused for want of memory alone, and then all is as before.
    pub fn write_in(&mut self, alloc: Global, list: Halves) -> Result<(), NoMemory>
        ensures contents { OnOk result (self.new.contents ≡ in_written self.old.contents list) }
        ensures past { OnOk result (self.new.past ≡ self.old.past ++ self.old.contents ∷ []) }
        ensures err_contents { OnErr result (self.new.contents ≡ self.old.contents) }
        ensures err_past { OnErr result (self.new.past ≡ self.old.past) }
    {
        let step = count(&self.changes);
        room(&mut self.changes)?;
        mark_ends(&mut self.marks, list.as_slice(), true, step)?;
        self.shelf.write_in(alloc, &list)?;
        add(&mut self.changes, Change::In(list));
        Ok(())
    }

    /// A step that takes the tags of this vertex away. Refused for want of memory alone, and then all is as before.
    pub fn remove_tags(&mut self, v: &Vid) -> Result<(), NoMemory>
        ensures contents { OnOk result (self.new.contents ≡ tags_removed self.old.contents v.now) }
        ensures past { OnOk result (self.new.past ≡ self.old.past ++ self.old.contents ∷ []) }
        ensures err_contents { OnErr result (self.new.contents ≡ self.old.contents) }
        ensures err_past { OnErr result (self.new.past ≡ self.old.past) }
    {
        let change = Change::Gone(*v);
        let step = count(&self.changes);
        room(&mut self.changes)?;
        mark_at(&mut self.marks, v, step)?;
        self.shelf.remove_vertex(v);
        add(&mut self.changes, change);
        Ok(())
    }

    /// A step that writes this tag. Refused for want of memory alone, and then all is as before.
    pub fn write_tag(&mut self, alloc: Global, key: TagKey, row: &Row) -> Result<(), NoMemory>
        ensures contents { OnOk result (self.new.contents ≡ changed self.old.contents (Tag key row.now)) }
        ensures past { OnOk result (self.new.past ≡ self.old.past ++ self.old.contents ∷ []) }
        ensures err_contents { OnErr result (self.new.contents ≡ self.old.contents) }
        ensures err_past { OnErr result (self.new.past ≡ self.old.past) }
    {
        let kept = row.copy(alloc)?;
        let change = Change::Tag(key, row.copy(alloc)?);
        let step = count(&self.changes);
        room(&mut self.changes)?;
        mark_at(&mut self.marks, &key.vid, step)?;
        self.shelf.set_tag(key, kept)?;
        add(&mut self.changes, change);
        Ok(())
    }
}

/// Adds a change, for which there is room.
fn add(changes: &mut Vec<Change>, change: Change)
    requires { vec_len changes.old < vec_capacity changes.old }
    ensures { changes.new.items ≡ changes.old.items ++ change ∷ [] }
{
    match changes.push(change) {
        Ok(()) => {}
        Err(_) => unreachable!(),
    }
}

/// Makes room for one more change.
fn room(changes: &mut Vec<Change>) -> Result<(), NoMemory>
    ensures room { OnOk result (vec_len changes.new < vec_capacity changes.new) }
    ensures same { changes.new.items ≡ changes.old.items }
    ensures fits { length changes.old.items < 2 ^ 63 }
{
    changes.reserve(1)?;
    Ok(())
}

fn count(changes: &Vec<Change>) -> u64
    ensures { result ≡ length changes.now.items }
{
    changes.len() as u64
}

/// What so many of the changes leave of a vertex, in time O(log n) for each of them that changed something of it. Refused
/// for want of memory alone.
fn made_again(
    alloc: Global,
    changes: &[Change],
    marks: &BTreeMap<Mark, ()>,
    v: &Vid,
    m: u64,
) -> Result<Shelf, NoMemory>
    requires fits { m ≤ length changes.now }
    requires marked { AreMarked changes.now marks.now.entries }
    ensures { IfOk result (λ shelf. AlikeAt v.now shelf (after_all nothing (take m changes.now))) }
{
    let mut made = Shelf::new(alloc);
    let mut from: u64 = 0;
    'marks: while let Some(step) = next_mark(marks, v, from, m) {
        made.apply(alloc, &changes[step as usize])?;
        from = step + 1;
    }
    Ok(made)
}
