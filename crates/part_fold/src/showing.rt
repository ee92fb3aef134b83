//! What a query finds in a part.
use crate::finding::push_alone;
use crate::state::PartState;
use graph_model::{Query, TagKey, Types, Vid, View};
use lists::NoMemory;
use std::alloc::Global;

impl PartState {
    ghost use Rattle.std.specs.Prelude.{◌≡◌, ◌++◌, IfOk, OnOk};
    ghost use Rattle.std.specs.FinMap.{entries};
    ghost use Rattle.std.specs.List.{filter_map};
    ghost use Rattle.graph_model.specs.Views.{found_in, found_out};
    ghost use Rattle.part_rules.specs.View.{view, rows_here};
    ghost use Rattle.part_fold.specs.State.{part_of};

    // Adds the rows of the in-halves of a vertex.
    fn push_ins(
        &self,
        alloc: Global,
        found: &mut View,
        v: &Vid,
        types: &Types,
    ) -> Result<(), NoMemory>
        ensures { OnOk result (found.new ≡ found.old ++ filter_map (found_in v.now types.now) (entries (rows_here (part_of self.now).inn))) }
    {
        self.inn.push_of(alloc, found, v, types)?;
        Ok(())
    }

    /// What a query finds in the part. Refused for want of memory alone.
    pub fn view(&self, alloc: Global, query: &Query) -> Result<View, NoMemory>
        ensures { IfOk result (λ found. found ≡ view query.now (part_of self.now)) }
    {
        let mut found = View::new(alloc);
        match query {
            Query::Tag(v, tag) => {
                let key = TagKey::of(v, tag);
                push_alone(alloc, &mut found, None, self.tags.get(&key))?;
                Ok(found)
            }
            Query::Edge(edge) => {
                push_alone(alloc, &mut found, Some(*edge), self.out.get(edge))?;
                Ok(found)
            }
            Query::Out(v, types) => {
                self.out.push_of(alloc, &mut found, v, types)?;
                Ok(found)
            }
            Query::In(v, types) => {
                self.push_ins(alloc, &mut found, v, types)?;
                Ok(found)
            }
            Query::Both(v, types) => {
                self.push_ins(alloc, &mut found, v, types)?;
                self.out.push_of(alloc, &mut found, v, types)?;
                Ok(found)
            }
        }
    }
}
