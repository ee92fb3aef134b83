//! A part behind its decided list.
ghost use Rattle.std.specs.Prelude.{◌≡◌, ◌<◌, IfOk};
ghost use Rattle.part_rules.specs.Folded.{folded};
ghost use Rattle.part_fold.specs.State.{part_of};

use crate::state::PartState;
use lists::NoMemory;
use part_keys::{PartEntry, Proposal};
use part_rules::Applied;
use std::alloc::Global;

impl PartState {
    ghost use Rattle.std.specs.Prelude.{◌≡◌, ◌<◌, IfOk};
    ghost use Rattle.part_rules.specs.Machine.{applied, writes};
    ghost use Rattle.part_rules.specs.Folded.{item_applied};
    ghost use Rattle.part_fold.specs.State.{part_of};

    /// Applies the item at an index of the part's list, in a space of so many parts, and gives its answer. Refused for want of
    /// memory alone; the part is of no use then.
    pub fn apply(
        &mut self,
        alloc: Global,
        parts: u32,
        index: u64,
        item: &Proposal,
    ) -> Result<Applied, NoMemory>
        requires { 0 < parts }
        ensures { IfOk result (λ said. item_applied parts index item.now (part_of self.old) ≡ (part_of self.new, said)) }
    {
        match item {
            Proposal::Made(entry) => self.apply_entry(alloc, parts, index, entry),
            _ => Ok(Applied::Nothing),
        }
    }

    fn apply_entry(
        &mut self,
        alloc: Global,
        parts: u32,
        index: u64,
        entry: &PartEntry,
    ) -> Result<Applied, NoMemory>
        requires { 0 < parts }
        ensures { IfOk result (λ said. applied parts index entry.now (part_of self.old) ≡ (part_of self.new, said)) }
    {
        match entry {
            PartEntry::Prime(id, list, absent) => {
                self.prime(alloc, parts, index, *id, list, *absent)
            }
            PartEntry::Local(v) => self.local(alloc, *v),
            PartEntry::Double(v) => self.double(alloc, *v),
            PartEntry::Close(v) => self.close(*v),
            PartEntry::Abort(v) => self.abort(*v),
            PartEntry::Remote(source, term, v, list) => {
                self.remote(alloc, *source, *term, *v, list)
            }
            PartEntry::Fence(source, term, v, edges) => self.fence(*source, *term, *v, edges),
            PartEntry::Vertex(id, op) => self.vertex(alloc, *id, op),
            PartEntry::Read(_, _) => Ok(Applied::Nothing),
        }
    }

    /// Whether an entry writes at least one in-half.
    pub fn writes(&self, entry: &PartEntry) -> bool
        ensures { result ≡ writes entry.now (part_of self.now) }
    {
        let PartEntry::Remote(source, term, v, list) = entry else {
            return false;
        };
        if *term < self.guard(*source) {
            return false;
        }
        self.is_any_fresh(*v, list.as_slice())
    }
}

/// The part behind a decided list, each item with its term, in a space of so many parts. Refused for want of memory alone.
pub fn folded(alloc: Global, parts: u32, decided: &[(u64, Proposal)]) -> Result<PartState, NoMemory>
    requires { 0 < parts }
    ensures { IfOk result (λ part. part_of part ≡ folded parts decided.now) }
{
    let mut part = PartState::new(alloc);
    for (i, item) in decided.iter().enumerate() {
        part.apply(alloc, parts, i as u64 + 1, &item.1)?;
    }
    Ok(part)
}
