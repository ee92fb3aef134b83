//! Sets of vertices.
ghost use Rattle.std.specs.Prelude.{◌≡◌, [], ◌∷◌, not, option_to_list, length, IfOk, OnOk, OnErr, IfNone, IfSome};
ghost use Rattle.std.specs.Bool.{OnFalse};
ghost use Rattle.std.specs.List.{slice_get};
ghost use Rattle.std.specs.BTreeSet.{insert_key};
ghost use Rattle.graph_model.specs.Keys.{vid_cmp};
ghost use Rattle.traversal.specs.Sets as spec;

use graph_model::{Found, Vid};
use lists::NoMemory;
use std::alloc::Global;
use std::collections::BTreeSet;
use std::marker::Model;

/// A set of vertices; contracts see its rising list.
#[derive(Drop)]
pub struct Ends {
    set: BTreeSet<Vid>,
}

impl Model for Ends {
    ghost use Rattle.std.specs.Prelude.{List};
    ghost use Rattle.graph_model.specs.declared.vid.Vid.{Vid};

    ghost Value = { List Vid };

    ghost view = { λ a. a.set.keys };
}

impl Ends {
    /// The empty set.
    pub fn new(alloc: Global) -> Self
        ensures { result ≡ [] }
    {
        Ends {
            set: BTreeSet::new(alloc),
        }
    }

    /// The number of vertices.
    pub fn len(&self) -> usize
        ensures { result ≡ length self.now }
    {
        self.set.len()
    }

    /// The least vertex.
    pub fn first(&self) -> Option<Vid>
        ensures { result ≡ slice_get self.now 0 }
    {
        self.set.first().copied()
    }

    /// Takes the least vertex out.
    pub fn take_first(&mut self) -> Option<Vid>
        ensures some { IfSome result (λ v. self.old ≡ v ∷ self.new) }
        ensures none { IfNone result (self.old ≡ []) }
    {
        self.set.pop_first()
    }

    /// Whether the vertex is in.
    fn has(&self, v: &Vid) -> bool
        ensures { result ≡ spec.has_vertex self.now v.now }
    {
        self.set.contains(v)
    }

    /// Puts a vertex in, and tells whether it is new. Refused for want of memory alone, and then the set is as it was.
    fn add(&mut self, v: Vid) -> Result<bool, NoMemory>
        ensures ok { OnOk result (self.new ≡ insert_key vid_cmp self.old v) }
        ensures fresh { IfOk result (λ fresh. fresh ≡ not (spec.has_vertex self.old v)) }
        ensures kept { IfOk result (λ fresh. OnFalse fresh (self.new ≡ self.old)) }
        ensures err { OnErr result (self.new ≡ self.old) }
    {
        Ok(self.set.insert(v)?)
    }

    /// Puts these vertices in. Refused for want of memory alone, and then some of them may be in.
    pub fn add_all(&mut self, vids: &[Vid]) -> Result<(), NoMemory>
        ensures { OnOk result (self.new ≡ spec.with_all self.old vids.now) }
    {
        for v in vids {
            self.add(*v)?;
        }
        Ok(())
    }

    /// Puts the other ends of what was found in. Refused for want of memory alone, and then the set is as it was.
    pub fn add_ends(&mut self, alloc: Global, view: &[Found]) -> Result<(), NoMemory>
        ensures ok { OnOk result (self.new ≡ spec.with_all self.old (spec.ends_in view.now)) }
        ensures err { OnErr result (self.new ≡ self.old) }
    {
        let mut fresh = Vec::new(alloc);
        for found in view {
            let Ok(()) = self.add_end(found, &mut fresh) else {
                self.take_out(fresh);
                return Err(NoMemory);
            };
        }
        Ok(())
    }

    /// Puts the other end of what was found in, and notes it first where it isn't in yet.
    fn add_end(&mut self, found: &Found, fresh: &mut Vec<Vid>) -> Result<(), NoMemory>
        ensures ok { OnOk result (self.new ≡ spec.with_all self.old (option_to_list (spec.other_end found.now))) }
        ensures undone { spec.without_all fresh.new.items self.new ≡ spec.without_all fresh.old.items self.old }
    {
        match other_end(found) {
            Some(v) => self.add_noted(&v, fresh),
            None => Ok(()),
        }
    }

    /// Puts a vertex in, and notes it first where it isn't in yet.
    fn add_noted(&mut self, v: &Vid, fresh: &mut Vec<Vid>) -> Result<(), NoMemory>
        ensures ok { OnOk result (self.new ≡ insert_key vid_cmp self.old v.now) }
        ensures undone { spec.without_all fresh.new.items self.new ≡ spec.without_all fresh.old.items self.old }
    {
        if self.has(v) {
            self.add(*v)?;
            return Ok(());
        }
        fresh.push(*v)?;
        self.add(*v)?;
        Ok(())
    }

    /// Takes these vertices out.
    fn take_out(&mut self, fresh: Vec<Vid>)
        ensures { self.new ≡ spec.without_all fresh.items self.old }
    {
        let mut fresh = fresh;
        while let Some(v) = fresh.pop() {
            self.take(&v);
        }
    }

    /// Takes a vertex out.
    fn take(&mut self, v: &Vid)
        ensures { self.new ≡ spec.without self.old v.now }
    {
        self.set.remove(v);
    }
}

/// The other end of an edge that was found.
fn other_end(found: &Found) -> Option<Vid>
    ensures { result ≡ spec.other_end found.now }
{
    let edge = found.edge?;
    Some(if found.inward { edge.src } else { edge.dst })
}
