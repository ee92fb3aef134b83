//! The graph.
ghost use Rattle.first_graph.specs.Machine.{IsRight};
ghost use Rattle.std.specs.Prelude.{◌≡◌, IsTrue, ◌↔◌, ◌<◌, ◌^◌, ◌++◌, ◌∷◌, [], OnOk, vec_len, vec_capacity};

use crate::answer::Answer;
use crate::book::Book;
use crate::call::{Call, CallState};
use crate::call_id::CallId;
use crate::chain::Chain;
use crate::chains::Chains;
use crate::change::Change;
use crate::edge_id::EdgeId;
use crate::found::View;
use crate::graph_step::GStep;
use crate::half::Half;
use crate::misfit::{Misfit, StepRefused};
use crate::op::Op;
use crate::query::Query;
use crate::shelf::Shelf;
use crate::tag_key::TagKey;
use lists::{NoMemory, Same};
use std::alloc::Global;
use std::marker::Model;

/// A graph, with its calls and its chains.
#[derive(Drop)]
pub struct Graph {
    shelf: Shelf,
    pend: Chains,
    calls: Book,
    past: Vec<Change>,
}

impl Model for Graph {
    ghost use Rattle.first_graph.specs.Machine.{Machine};
    ghost use Rattle.first_graph.specs.MachineCode.{machine_code};
    ghost use Rattle.first_graph.specs.contracts.shelf.Shelf as shelves;
    ghost use Rattle.first_graph.specs.contracts.change.Change as change;
    ghost use Rattle.first_graph.specs.contracts.chains.Chains as chains;
    ghost use Rattle.first_graph.specs.contracts.book.Book as book;

    ghost Value = { Machine };

    ghost coded = { machine_code shelves.the_row.coded chains.the_row.coded book.the_row.coded change.the_row.coded };

    ghost view = { λ a. record { contents = a.shelf; pend = a.pend; calls = a.calls; past = a.past.items } };
}

impl Graph {
    ghost use Rattle.std.specs.Prelude.{◌≡◌, false, ◌+◌, ◌-◌, ◌++◌, ◌∷◌, [], ◌<◌, OnOk, OnErr, IfOk, IfErr, IsTrue, ◌↔◌, vec_len, vec_capacity};
    ghost use Rattle.std.specs.FinMap.{insert, remove};
    ghost use Rattle.first_graph.specs.Maps.{altered};
    ghost use Rattle.first_graph.specs.Marks.{with_state};
    ghost use Rattle.first_graph.specs.declared.change.Change.TheVariants.{Nothing};
    ghost use Rattle.first_graph.specs.declared.call.CallState.TheVariants.{Begun, Done};
    ghost use Rattle.first_graph.specs.Machine.{start, taken, done, begun, invoked, skipped, refused, in_written, out_written, settled, cancelled, vertex_written, read_at, RefusedAs, Step, StepRefuses};
    ghost use Rattle.first_graph.specs.declared.graph_step.GStep.TheVariants.{Reply};
    ghost use Rattle.first_graph.specs.Views.{view_of};

    /// The empty graph.
    pub fn new(alloc: Global) -> Result<Graph, NoMemory>
        ensures { IfOk result (λ g. g ≡ start) }
    {
        Ok(Graph {
            shelf: Shelf::new(alloc),
            pend: Chains::new(alloc),
            calls: Book::new(alloc),
            past: Vec::new(alloc),
        })
    }

    /// What a query finds now.
    pub fn view(&self, alloc: Global, query: &Query) -> Result<View, NoMemory>
        ensures { IfOk result (λ view. view ≡ view_of query.now self.now.contents) }
    {
        self.shelf.view(alloc, query)
    }

    fn invoke(&mut self, id: CallId, op: Op) -> Result<(), StepRefused>
        ensures ok { OnOk result (invoked self.old id op ≡ Ok self.new) }
        ensures misfit { IfErr result (RefusedAs (invoked self.old id op)) }
        ensures err { OnErr result (self.new ≡ self.old) }
    {
        if self.calls.has(id) {
            return Err(StepRefused::Misfit(Misfit::KnownId));
        }
        reserve(&mut self.past)?;
        let moment = self.past.len() as u64 + 1;
        self.calls.put(
            id,
            Call {
                op,
                moment,
                state: CallState::Open,
                shown: false,
                said: false,
            },
        )?;
        note(&mut self.past, Change::Nothing);
        Ok(())
    }

    fn begin(&mut self, alloc: Global, id: CallId) -> Result<(), StepRefused>
        ensures ok { OnOk result (begun self.old id ≡ Ok self.new) }
        ensures misfit { IfErr result (RefusedAs (begun self.old id)) }
        ensures err { OnErr result (self.new ≡ self.old) }
    {
        let Some(call) = self.calls.get(id) else {
            return Err(StepRefused::Misfit(Misfit::NotOpen));
        };
        let CallState::Open = &call.state else {
            return Err(StepRefused::Misfit(Misfit::NotOpen));
        };
        match &call.op {
            Op::PutEdge(e, row, absent) => {
                let e = *e;
                if self.pend.has(e) {
                    return Err(StepRefused::Misfit(Misfit::EdgePending));
                }
                if *absent && self.shelf.has_out(e) {
                    return Err(StepRefused::Misfit(Misfit::RowThere));
                }
                let half = Half::Here(row.copy(alloc)?);
                self.start_chain(id, e, half)?;
                Ok(())
            }
            Op::DelEdge(e) => {
                if self.pend.has(*e) {
                    return Err(StepRefused::Misfit(Misfit::EdgePending));
                }
                let e = *e;
                self.start_chain(id, e, Half::Absent)?;
                Ok(())
            }
            _ => Err(StepRefused::Misfit(Misfit::WrongKind)),
        }
    }

    /// Puts a chain on an edge, for a call that begins.
    fn start_chain(&mut self, id: CallId, e: EdgeId, half: Half) -> Result<(), NoMemory>
        ensures ok { OnOk result (self.new ≡ taken self.old (insert self.old.pend e (record { id = id; half = half; in_done = false; out_done = false })) (altered self.old.calls id (with_state Begun)) Nothing) }
        ensures err { OnErr result (self.new ≡ self.old) }
    {
        reserve(&mut self.past)?;
        self.pend.put(
            e,
            Chain {
                id,
                half,
                in_done: false,
                out_done: false,
            },
        )?;
        self.calls.set_state(id, CallState::Begun);
        note(&mut self.past, Change::Nothing);
        Ok(())
    }

    /// Ends a call that changes nothing.
    fn end_call(&mut self, id: CallId, answer: Answer) -> Result<(), NoMemory>
        ensures ok { OnOk result (self.new ≡ done self.old id answer Nothing) }
        ensures err { OnErr result (self.new ≡ self.old) }
    {
        reserve(&mut self.past)?;
        self.calls.set_state(id, CallState::Done(answer));
        note(&mut self.past, Change::Nothing);
        Ok(())
    }

    fn skip(&mut self, id: CallId) -> Result<(), StepRefused>
        ensures ok { OnOk result (skipped self.old id ≡ Ok self.new) }
        ensures misfit { IfErr result (RefusedAs (skipped self.old id)) }
        ensures err { OnErr result (self.new ≡ self.old) }
    {
        let Some(call) = self.calls.get(id) else {
            return Err(StepRefused::Misfit(Misfit::NotOpen));
        };
        let CallState::Open = &call.state else {
            return Err(StepRefused::Misfit(Misfit::NotOpen));
        };
        match &call.op {
            Op::PutEdge(e, _, true) => {
                let e = *e;
                if self.pend.has(e) {
                    return Err(StepRefused::Misfit(Misfit::EdgePending));
                }
                if !self.shelf.has_out(e) {
                    return Err(StepRefused::Misfit(Misfit::NoRow));
                }
                self.end_call(id, Answer::Skipped)?;
                Ok(())
            }
            _ => Err(StepRefused::Misfit(Misfit::WrongKind)),
        }
    }

    fn refuse(&mut self, id: CallId) -> Result<(), StepRefused>
        ensures ok { OnOk result (refused self.old id ≡ Ok self.new) }
        ensures misfit { IfErr result (RefusedAs (refused self.old id)) }
        ensures err { OnErr result (self.new ≡ self.old) }
    {
        let Some(call) = self.calls.get(id) else {
            return Err(StepRefused::Misfit(Misfit::NotOpen));
        };
        let CallState::Open = &call.state else {
            return Err(StepRefused::Misfit(Misfit::NotOpen));
        };
        let e = match &call.op {
            Op::PutEdge(e, _, _) => *e,
            Op::DelEdge(e) => *e,
            _ => return Err(StepRefused::Misfit(Misfit::WrongKind)),
        };
        let Some(chain) = self.pend.get(e) else {
            return Err(StepRefused::Misfit(Misfit::NotPending));
        };
        let holder = chain.id;
        self.end_call(id, Answer::Conflict(holder))?;
        Ok(())
    }

    fn write_in(&mut self, alloc: Global, e: EdgeId) -> Result<(), StepRefused>
        ensures ok { OnOk result (in_written self.old e ≡ Ok self.new) }
        ensures misfit { IfErr result (RefusedAs (in_written self.old e)) }
        ensures err { OnErr result (self.new ≡ self.old) }
    {
        let Some(chain) = self.pend.get(e) else {
            return Err(StepRefused::Misfit(Misfit::NotPending));
        };
        if chain.in_done {
            return Err(StepRefused::Misfit(Misfit::HalfDone));
        }
        let half = chain.half.copy(alloc)?;
        let change = Change::In(e, chain.half.copy(alloc)?);
        reserve(&mut self.past)?;
        self.shelf.set_in(e, half)?;
        self.pend.mark_in(e);
        note(&mut self.past, change);
        Ok(())
    }

    fn write_out(&mut self, alloc: Global, e: EdgeId) -> Result<(), StepRefused>
        ensures ok { OnOk result (out_written self.old e ≡ Ok self.new) }
        ensures misfit { IfErr result (RefusedAs (out_written self.old e)) }
        ensures err { OnErr result (self.new ≡ self.old) }
    {
        let Some(chain) = self.pend.get(e) else {
            return Err(StepRefused::Misfit(Misfit::NotPending));
        };
        if chain.out_done {
            return Err(StepRefused::Misfit(Misfit::HalfDone));
        }
        let half = chain.half.copy(alloc)?;
        let change = Change::Out(e, chain.half.copy(alloc)?);
        let id = chain.id;
        reserve(&mut self.past)?;
        self.shelf.set_out(e, half)?;
        self.pend.mark_out(e);
        self.calls.mark_shown(id);
        note(&mut self.past, change);
        Ok(())
    }

    /// Takes a chain away, and ends its call.
    fn end_chain(&mut self, e: EdgeId, id: CallId, answer: Answer) -> Result<(), NoMemory>
        ensures ok { OnOk result (self.new ≡ taken self.old (remove self.old.pend e) (altered self.old.calls id (with_state (Done answer))) Nothing) }
        ensures err { OnErr result (self.new ≡ self.old) }
    {
        reserve(&mut self.past)?;
        self.pend.remove(e);
        self.calls.set_state(id, CallState::Done(answer));
        note(&mut self.past, Change::Nothing);
        Ok(())
    }

    fn settle(&mut self, e: EdgeId) -> Result<(), StepRefused>
        ensures ok { OnOk result (settled self.old e ≡ Ok self.new) }
        ensures misfit { IfErr result (RefusedAs (settled self.old e)) }
        ensures err { OnErr result (self.new ≡ self.old) }
    {
        let Some(chain) = self.pend.get(e) else {
            return Err(StepRefused::Misfit(Misfit::NotPending));
        };
        if !chain.in_done || !chain.out_done {
            return Err(StepRefused::Misfit(Misfit::HalfMissing));
        }
        let id = chain.id;
        self.end_chain(e, id, Answer::Fine)?;
        Ok(())
    }

    fn cancel(&mut self, e: EdgeId) -> Result<(), StepRefused>
        ensures ok { OnOk result (cancelled self.old e ≡ Ok self.new) }
        ensures misfit { IfErr result (RefusedAs (cancelled self.old e)) }
        ensures err { OnErr result (self.new ≡ self.old) }
    {
        let Some(chain) = self.pend.get(e) else {
            return Err(StepRefused::Misfit(Misfit::NotPending));
        };
        if chain.in_done || chain.out_done {
            return Err(StepRefused::Misfit(Misfit::HalfDone));
        }
        let id = chain.id;
        self.end_chain(e, id, Answer::Cancelled)?;
        Ok(())
    }

    fn write_vertex(&mut self, alloc: Global, id: CallId) -> Result<(), StepRefused>
        ensures ok { OnOk result (vertex_written self.old id ≡ Ok self.new) }
        ensures misfit { IfErr result (RefusedAs (vertex_written self.old id)) }
        ensures err { OnErr result (self.new ≡ self.old) }
    {
        let Some(call) = self.calls.get(id) else {
            return Err(StepRefused::Misfit(Misfit::NotOpen));
        };
        let CallState::Open = &call.state else {
            return Err(StepRefused::Misfit(Misfit::NotOpen));
        };
        match &call.op {
            Op::PutVertex(v, t, row, absent) => {
                let key = TagKey::of(v, t);
                if *absent && self.shelf.has_tag(key) {
                    self.end_call(id, Answer::Skipped)?;
                    return Ok(());
                }
                let kept = row.copy(alloc)?;
                let change = Change::Tag(key, row.copy(alloc)?);
                reserve(&mut self.past)?;
                self.shelf.set_tag(key, kept)?;
                self.calls.set_state(id, CallState::Done(Answer::Fine));
                note(&mut self.past, change);
                Ok(())
            }
            Op::DelVertex(v) => {
                let v = *v;
                reserve(&mut self.past)?;
                self.shelf.remove_vertex(v);
                self.calls.set_state(id, CallState::Done(Answer::Fine));
                note(&mut self.past, Change::Gone(v));
                Ok(())
            }
            _ => Err(StepRefused::Misfit(Misfit::WrongKind)),
        }
    }

    fn read(&mut self, alloc: Global, id: CallId, m: u64) -> Result<(), StepRefused>
        ensures ok { OnOk result (read_at self.old id m ≡ Ok self.new) }
        ensures misfit { IfErr result (RefusedAs (read_at self.old id m)) }
        ensures err { OnErr result (self.new ≡ self.old) }
    {
        let Some(call) = self.calls.get(id) else {
            return Err(StepRefused::Misfit(Misfit::NotOpen));
        };
        let CallState::Open = &call.state else {
            return Err(StepRefused::Misfit(Misfit::NotOpen));
        };
        match &call.op {
            Op::Read(query) => {
                let now = self.past.len();
                if m < call.moment || m > now as u64 {
                    return Err(StepRefused::Misfit(Misfit::BadMoment));
                }
                let then = Shelf::after(alloc, &self.past[..m as usize])?;
                let view = then.view(alloc, query)?;
                self.end_call(id, Answer::Shown(view))?;
                Ok(())
            }
            _ => Err(StepRefused::Misfit(Misfit::WrongKind)),
        }
    }

    fn reply(&mut self, id: CallId, answer: Answer) -> Result<(), StepRefused>
        ensures ok { OnOk result (Step self.old (Reply id answer) (Ok self.new)) }
        ensures misfit { IfErr result (StepRefuses self.old (Reply id answer)) }
        ensures err { OnErr result (self.new ≡ self.old) }
    {
        let Some(call) = self.calls.get(id) else {
            return Err(StepRefused::Misfit(Misfit::NotOpen));
        };
        let right = may_say(call, &answer);
        if call.said {
            return Err(StepRefused::Misfit(Misfit::NotOpen));
        }
        if !right {
            return Err(StepRefused::Misfit(Misfit::WrongAnswer));
        }
        reserve(&mut self.past)?;
        self.calls.mark_said(id);
        note(&mut self.past, Change::Nothing);
        Ok(())
    }

    /// One step of the machine.
    pub fn step(&mut self, alloc: Global, s: GStep) -> Result<(), StepRefused>
        ensures ok { OnOk result (Step self.old s (Ok self.new)) }
        ensures misfit { IfErr result (StepRefuses self.old s) }
        ensures err { OnErr result (self.new ≡ self.old) }
    {
        match s {
            GStep::Invoke(id, op) => self.invoke(id, op),
            GStep::Begin(id) => self.begin(alloc, id),
            GStep::Skip(id) => self.skip(id),
            GStep::Refuse(id) => self.refuse(id),
            GStep::InHalf(e) => self.write_in(alloc, e),
            GStep::OutHalf(e) => self.write_out(alloc, e),
            GStep::Settle(e) => self.settle(e),
            GStep::Cancel(e) => self.cancel(e),
            GStep::Vertex(id) => self.write_vertex(alloc, id),
            GStep::Read(id, m) => self.read(alloc, id, m),
            GStep::Reply(id, answer) => self.reply(id, answer),
        }
    }
}

/// Whether a call may be given an answer.
fn may_say(call: &Call, answer: &Answer) -> bool
    ensures { IsTrue result ↔ IsRight answer.now call.now }
{
    if let Answer::Unknown = answer {
        return true;
    }
    if call.shown {
        if let Answer::Pending = answer {
            return true;
        }
    }
    match &call.state {
        CallState::Open => false,
        CallState::Begun => false,
        CallState::Done(said) => said.is_same(answer),
    }
}

/// Makes room for one more change.
fn reserve(past: &mut Vec<Change>) -> Result<(), NoMemory>
    ensures room { OnOk result (vec_len past.new < vec_capacity past.new) }
    ensures same { past.new.items ≡ past.old.items }
    ensures fits { vec_len past.old < 2 ^ 63 }
{
    past.reserve(1)?;
    Ok(())
}

/// Adds a change, for which there is room.
fn note(past: &mut Vec<Change>, change: Change)
    requires { vec_len past.old < vec_capacity past.old }
    ensures { past.new.items ≡ past.old.items ++ change ∷ [] }
{
    match past.push(change) {
        Ok(()) => {}
        Err(_) => unreachable!(),
    }
}
