//! A walk.
ghost use Rattle.std.specs.Prelude.{◌≡◌, ◌≤◌, true, false, is_some, IfOk, OnOk, IfErr};
ghost use Rattle.traversal.specs.Trail as spec;
ghost use Rattle.traversal.specs.declared.refused.WalkRefused.TheVariants as refused;

use crate::ends::Ends;
use crate::refused::WalkRefused;
use graph_model::{Query, Types, Vid, View};
use lists::{Listed, NoMemory};
use ngql_syntax::Way;
use std::alloc::Global;
use std::mem;

/// The most vertices that a frontier behind the first may have.
pub const MOST_ENDS: usize = 4096;

/// What some reads found, in their order.
pub type Views = Listed<View>;

/// A walk of some steps over edges of some types.
#[derive(Drop)]
pub struct Walk {
    way: Way,
    types: Types,
    /// The steps that are left, with the one under way.
    left: u32,
    /// The vertices of the frontier that are still to be read.
    rest: Ends,
    /// The other ends that this step's reads found.
    ends: Ends,
    /// What the last step's reads found.
    found: Views,
    /// Whether the next frontier has too many vertices.
    wide: bool,
}

impl Walk {
    /// A walk of so many steps from a set of vertices, in which a vertex may be named more than once. Refused for want
    /// of memory alone.
    pub fn new(
        alloc: Global,
        steps: u32,
        start: &[Vid],
        types: Types,
        way: Way,
    ) -> Result<Self, NoMemory>
        ensures { IfOk result (λ walk. walk ≡ spec.starting steps start.now types way) }
    {
        let mut rest = Ends::new(alloc);
        if steps > 0 {
            rest.add_all(start)?;
        }
        Ok(Walk {
            way,
            types,
            left: steps,
            rest,
            ends: Ends::new(alloc),
            found: Views::new(alloc),
            wide: false,
        })
    }

    /// The next read; none where all were fed, or the walk is too wide. Refused for want of memory alone.
    pub fn next_need(&self, alloc: Global) -> Result<Option<Query>, NoMemory>
        ensures { IfOk result (λ need. need ≡ spec.need_of self.now) }
    {
        if self.wide {
            return Ok(None);
        }
        let Some(v) = self.rest.first() else {
            return Ok(None);
        };
        let types = self.types.copy(alloc)?;
        Ok(Some(match self.way {
            Way::Outward => Query::Out(v, types),
            Way::Inward => Query::In(v, types),
            Way::Both => Query::Both(v, types),
        }))
    }

    /// The vertex that is read next; none where all were fed, or the walk is too wide.
    pub fn next_vertex(&self) -> Option<Vid>
        ensures { result ≡ spec.next_of self.now }
    {
        if self.wide {
            return None;
        }
        self.rest.first()
    }

    /// Whether a read is needed.
    pub fn needs(&self) -> bool
        ensures { result ≡ is_some (spec.next_of self.now) }
    {
        !self.wide && self.rest.first().is_some()
    }

    /// What the next read found. `TooWide` where the next frontier has, with what was found so far, more than 4,096
    /// vertices, and then the walk has ended. Behind want of memory the walk is as it was.
    pub fn feed(&mut self, alloc: Global, view: View) -> Result<(), WalkRefused>
        requires { is_some (spec.next_of self.old) ≡ true }
        ensures ok { OnOk result (self.new ≡ spec.fed self.old view) }
        ensures fits { OnOk result (self.new.wide ≡ false) }
        ensures err { IfErr result (spec.IsRefused self.old view self.new) }
    {
        if self.left == 1 {
            self.found.push(view)?;
            self.rest.take_first();
            return Ok(());
        }
        self.ends.add_ends(alloc, view.as_slice())?;
        self.rest.take_first();
        if self.ends.len() > MOST_ENDS {
            self.wide = true;
            return Err(WalkRefused::TooWide);
        }
        if self.rest.len() == 0 {
            self.left = self.left.saturating_sub(1);
            self.rest = mem::replace(&mut self.ends, Ends::new(alloc));
        }
        Ok(())
    }

    /// Whether a frontier had too many vertices, so that the walk has ended.
    pub fn is_wide(&self) -> bool
        ensures { result ≡ self.now.wide }
    {
        self.wide
    }

    /// What the reads of the last step found, by rising vertex of the last frontier.
    pub fn rows(&self) -> &[View]
        requires { spec.next_of self.now ≡ None }
        ensures { result.now ≡ self.now.found }
    {
        self.found.as_slice()
    }

    /// The same, given up by the walk.
    pub fn into_rows(self) -> Views
        ensures { result ≡ self.found }
    {
        self.found
    }
}
