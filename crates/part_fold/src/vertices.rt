//! What a call on a vertex does.
use crate::state::PartState;
use graph_model::{CallId, Op, Row, TagKey, Vid};
use lists::NoMemory;
use part_rules::{Applied, Outcome};
use std::alloc::Global;

impl PartState {
    ghost use Rattle.std.specs.Prelude.{◌≡◌, IfOk};
    ghost use Rattle.part_rules.specs.Machine.{where_new, vertex_written, vertex_gone, tag_put};
    ghost use Rattle.part_fold.specs.State.{part_of};

    // A Vertex: a call that was seen is answered again; a put with the flag over a row that is here is skipped; else the row is
    // written, or all tags of the vertex are removed.
    pub(crate) fn vertex(&mut self, alloc: Global, id: CallId, op: &Op) -> Result<Applied, NoMemory>
        ensures { IfOk result (λ said. where_new (part_of self.old) id (vertex_written (part_of self.old) id op.now) ≡ (part_of self.new, said)) }
    {
        if let Some(last) = self.clients.get(id.client as u64) {
            if id.number < last.number {
                return Ok(Applied::Old);
            }
            if id.number == last.number {
                return Ok(Applied::Again(last.outcome));
            }
        }
        self.write_vertex(alloc, id, op)
    }

    // The same, of a call that is new to the part.
    fn write_vertex(&mut self, alloc: Global, id: CallId, op: &Op) -> Result<Applied, NoMemory>
        ensures { IfOk result (λ said. vertex_written (part_of self.old) id op.now ≡ (part_of self.new, said)) }
    {
        match op {
            Op::PutVertex(v, tag, row, absent) => {
                self.put_tag(alloc, id, TagKey::of(v, tag), row, *absent)
            }
            Op::DelVertex(v) => {
                self.tags.remove_of(v);
                self.keep(id, Outcome::Fine)?;
                Ok(Applied::Finished(id))
            }
            _ => Ok(Applied::Nothing),
        }
    }

    // A tag has this row, unless it is here and the flag leaves it.
    fn put_tag(
        &mut self,
        alloc: Global,
        id: CallId,
        key: TagKey,
        row: &Row,
        absent: bool,
    ) -> Result<Applied, NoMemory>
        ensures { IfOk result (λ said. tag_put (part_of self.old) id key row.now absent ≡ (part_of self.new, said)) }
    {
        if absent && self.tags.has(&key) {
            self.keep(id, Outcome::Skipped)?;
            return Ok(Applied::Skipped);
        }
        let row = row.copy(alloc)?;
        self.tags.put(key, row)?;
        self.keep(id, Outcome::Fine)?;
        Ok(Applied::Finished(id))
    }
}
