//! The graph.
ghost use Rattle.std.specs.Prelude.{◌≡◌};
ghost use Rattle.graph_model.specs.Lookups.{is_right, is_done_with};

use crate::answer::Answer;
use crate::book::Book;
use crate::call::{Call, CallState};
use crate::call_id::CallId;
use crate::chain::Chain;
use crate::chains::Chains;
use crate::edge_id::EdgeId;
use crate::found::View;
use crate::graph_step::GStep;
use crate::half::Halves;
use crate::misfit::{Misfit, StepRefused};
use crate::op::Op;
use crate::query::Query;
use crate::tag_key::TagKey;
use crate::track::Track;
use lists::NoMemory;
use std::alloc::Global;
use std::marker::Model;

/// A graph, with its calls and its chains.
#[derive(Drop)]
pub struct Graph {
    track: Track,
    pend: Chains,
    calls: Book,
}

impl Model for Graph {
    ghost use Rattle.graph_model.specs.State.{GraphState};
    ghost use Rattle.graph_model.specs.Changes.{state_code};
    ghost use Rattle.graph_model.specs.contracts.shelf.Shelf as shelves;
    ghost use Rattle.graph_model.specs.contracts.chains.Chains as chains;
    ghost use Rattle.graph_model.specs.contracts.book.Book as book;

    ghost Value = { GraphState };

    ghost coded = { state_code shelves.the_row.coded chains.the_row.coded book.the_row.coded };

    ghost view = { λ a. record { contents = a.track.contents; pend = a.pend; calls = a.calls; past = a.track.past } };
}

impl Graph {
    ghost use Rattle.std.specs.Prelude.{◌≡◌, OnOk, OnErr, IfOk, IfErr, Ok};
    ghost use Rattle.graph_model.specs.State.{start};
    ghost use Rattle.graph_model.specs.Steps.{step, noted, chained, unchained};
    ghost use Rattle.graph_model.specs.Changes.{RefusedAs};
    ghost use Rattle.graph_model.specs.declared.graph_step.GStep.TheVariants.{Invoke, Begin, Skip, Refuse, InHalf, OutHalf, Settle, Cancel, Vertex, Read, Reply};
    ghost use Rattle.graph_model.specs.Views.{view_of};
    ghost use Rattle.graph_model.specs.declared.call.CallState.TheVariants.{Done};
    ghost use Rattle.graph_model.specs.State.{first_pending};
    ghost use Rattle.graph_model.specs.Steps.{moved};
    ghost use Rattle.graph_model.specs.Edges.{edges_in};
    ghost use Rattle.graph_model.specs.Holders.{AreFree};

    /// The empty graph.
    pub fn new(alloc: Global) -> Result<Graph, NoMemory>
        ensures { IfOk result (λ g. g ≡ start) }
    {
        Ok(Graph {
            track: Track::new(alloc),
            pend: Chains::new(alloc),
            calls: Book::new(alloc),
        })
    }

    /// What a query finds now.
    pub fn view(&self, alloc: Global, query: &Query) -> Result<View, NoMemory>
        ensures { IfOk result (λ view. view ≡ view_of query.now self.now.contents) }
    {
        self.track.shelf().view(alloc, query)
    }

    fn invoke(&mut self, id: CallId, op: Op) -> Result<(), StepRefused>
        ensures ok { OnOk result (step self.old (Invoke id op) ≡ Ok self.new) }
        ensures misfit { IfErr result (RefusedAs (step self.old (Invoke id op))) }
        ensures err { OnErr result (self.new ≡ self.old) }
    {
        if self.calls.has(id) {
            return Err(StepRefused::Misfit(Misfit::KnownId));
        }
        self.track.reserve()?;
        let moment = self.track.now() + 1;
        self.calls.put(
            id,
            Call {
                op,
                moment,
                state: CallState::Open,
                shown: false,
                said: false,
            },
        )?;
        self.track.note();
        Ok(())
    }

    /// The id that pends the first of these edges that is pending.
    fn first_pending(&self, edges: &[EdgeId]) -> Option<CallId>
        ensures { result ≡ first_pending self.now edges.now }
    {
        for edge in edges {
            if let Some(id) = self.pend.first_on(edge) {
                return Some(id);
            }
        }
        None
    }

    fn begin(&mut self, alloc: Global, id: CallId) -> Result<(), StepRefused>
        ensures ok { OnOk result (step self.old (Begin id) ≡ Ok self.new) }
        ensures misfit { IfErr result (RefusedAs (step self.old (Begin id))) }
        ensures err { OnErr result (self.new ≡ self.old) }
    {
        let Some(call) = self.calls.get(id) else {
            return Err(StepRefused::Misfit(Misfit::NotOpen));
        };
        let CallState::Open = &call.state else {
            return Err(StepRefused::Misfit(Misfit::NotOpen));
        };
        if !call.op.is_edge_op() {
            return Err(StepRefused::Misfit(Misfit::WrongKind));
        }
        let careful = call.op.is_careful();
        let edges = call.op.edges(alloc)?;
        let list = self.track.shelf().takes(alloc, &call.op)?;
        if self.first_pending(edges.as_slice()).is_some() {
            return Err(StepRefused::Misfit(Misfit::EdgePending));
        }
        if careful && self.track.shelf().has_all_out(edges.as_slice()) {
            return Err(StepRefused::Misfit(Misfit::RowThere));
        }
        self.begin_chain(id, list)?;
        Ok(())
    }

    /// Begins a chain of the call on these edges, none of which is in a chain.
    fn begin_chain(&mut self, id: CallId, list: Halves) -> Result<(), NoMemory>
        requires { AreFree self.old.pend (edges_in list) }
        ensures ok { OnOk result (self.new ≡ noted self.old (chained self.old id list)) }
        ensures err { OnErr result (self.new ≡ self.old) }
    {
        self.track.reserve()?;
        self.pend.put(
            id,
            Chain {
                list,
                in_done: false,
                out_done: false,
            },
        )?;
        self.calls.set_state(id, CallState::Begun);
        self.track.note();
        Ok(())
    }

    /// Ends a call that changes nothing.
    fn end_call(&mut self, id: CallId, answer: Answer) -> Result<(), NoMemory>
        ensures ok { OnOk result (self.new ≡ noted self.old (moved self.old id (Done answer))) }
        ensures err { OnErr result (self.new ≡ self.old) }
    {
        self.track.reserve()?;
        self.calls.set_state(id, CallState::Done(answer));
        self.track.note();
        Ok(())
    }

    fn skip(&mut self, alloc: Global, id: CallId) -> Result<(), StepRefused>
        ensures ok { OnOk result (step self.old (Skip id) ≡ Ok self.new) }
        ensures misfit { IfErr result (RefusedAs (step self.old (Skip id))) }
        ensures err { OnErr result (self.new ≡ self.old) }
    {
        let Some(call) = self.calls.get(id) else {
            return Err(StepRefused::Misfit(Misfit::NotOpen));
        };
        let CallState::Open = &call.state else {
            return Err(StepRefused::Misfit(Misfit::NotOpen));
        };
        if !call.op.is_careful() {
            return Err(StepRefused::Misfit(Misfit::WrongKind));
        }
        let edges = call.op.edges(alloc)?;
        if self.first_pending(edges.as_slice()).is_some() {
            return Err(StepRefused::Misfit(Misfit::EdgePending));
        }
        if !self.track.shelf().has_all_out(edges.as_slice()) {
            return Err(StepRefused::Misfit(Misfit::NoRow));
        }
        self.end_call(id, Answer::Skipped)?;
        Ok(())
    }

    fn refuse(&mut self, alloc: Global, id: CallId) -> Result<(), StepRefused>
        ensures ok { OnOk result (step self.old (Refuse id) ≡ Ok self.new) }
        ensures misfit { IfErr result (RefusedAs (step self.old (Refuse id))) }
        ensures err { OnErr result (self.new ≡ self.old) }
    {
        let Some(call) = self.calls.get(id) else {
            return Err(StepRefused::Misfit(Misfit::NotOpen));
        };
        let CallState::Open = &call.state else {
            return Err(StepRefused::Misfit(Misfit::NotOpen));
        };
        if !call.op.is_edge_op() {
            return Err(StepRefused::Misfit(Misfit::WrongKind));
        }
        let edges = call.op.edges(alloc)?;
        let Some(holder) = self.first_pending(edges.as_slice()) else {
            return Err(StepRefused::Misfit(Misfit::NotPending));
        };
        self.end_call(id, Answer::Conflict(holder))?;
        Ok(())
    }

    fn write_in(&mut self, alloc: Global, id: CallId) -> Result<(), StepRefused>
        ensures ok { OnOk result (step self.old (InHalf id) ≡ Ok self.new) }
        ensures misfit { IfErr result (RefusedAs (step self.old (InHalf id))) }
        ensures err { OnErr result (self.new ≡ self.old) }
    {
        let Some(chain) = self.pend.get(id) else {
            return Err(StepRefused::Misfit(Misfit::NotPending));
        };
        if chain.in_done {
            return Err(StepRefused::Misfit(Misfit::HalfDone));
        }
        let list = chain.list.copy(alloc)?;
        self.track.write_in(alloc, list)?;
        self.pend.mark_in(id);
        Ok(())
    }

    fn write_out(&mut self, alloc: Global, id: CallId) -> Result<(), StepRefused>
        ensures ok { OnOk result (step self.old (OutHalf id) ≡ Ok self.new) }
        ensures misfit { IfErr result (RefusedAs (step self.old (OutHalf id))) }
        ensures err { OnErr result (self.new ≡ self.old) }
    {
        let Some(chain) = self.pend.get(id) else {
            return Err(StepRefused::Misfit(Misfit::NotPending));
        };
        if chain.out_done {
            return Err(StepRefused::Misfit(Misfit::HalfDone));
        }
        let list = chain.list.copy(alloc)?;
        self.track.write_out(alloc, list)?;
        self.pend.mark_out(id);
        self.calls.mark_shown(id);
        Ok(())
    }

    fn write_vertex(&mut self, alloc: Global, id: CallId) -> Result<(), StepRefused>
        ensures ok { OnOk result (step self.old (Vertex id) ≡ Ok self.new) }
        ensures misfit { IfErr result (RefusedAs (step self.old (Vertex id))) }
        ensures err { OnErr result (self.new ≡ self.old) }
    {
        let Some(call) = self.calls.get(id) else {
            return Err(StepRefused::Misfit(Misfit::NotOpen));
        };
        let CallState::Open = &call.state else {
            return Err(StepRefused::Misfit(Misfit::NotOpen));
        };
        match &call.op {
            Op::PutVertex(v, t, row, absent) => {
                let key = TagKey::of(v, t);
                if *absent && self.track.shelf().has_tag(&key) {
                    self.end_call(id, Answer::Skipped)?;
                    return Ok(());
                }
                self.track.write_tag(alloc, key, row)?;
                self.calls.set_state(id, CallState::Done(Answer::Fine));
                Ok(())
            }
            Op::DelVertex(v) => {
                self.track.remove_tags(v)?;
                self.calls.set_state(id, CallState::Done(Answer::Fine));
                Ok(())
            }
            _ => Err(StepRefused::Misfit(Misfit::WrongKind)),
        }
    }

    /// Takes a chain away, and ends its call.
    fn end_chain(&mut self, id: CallId, answer: Answer) -> Result<(), NoMemory>
        ensures ok { OnOk result (self.new ≡ noted self.old (unchained self.old id answer)) }
        ensures err { OnErr result (self.new ≡ self.old) }
    {
        self.track.reserve()?;
        self.pend.remove(id);
        self.calls.set_state(id, CallState::Done(answer));
        self.track.note();
        Ok(())
    }

    fn settle(&mut self, id: CallId) -> Result<(), StepRefused>
        ensures ok { OnOk result (step self.old (Settle id) ≡ Ok self.new) }
        ensures misfit { IfErr result (RefusedAs (step self.old (Settle id))) }
        ensures err { OnErr result (self.new ≡ self.old) }
    {
        let Some(chain) = self.pend.get(id) else {
            return Err(StepRefused::Misfit(Misfit::NotPending));
        };
        if !chain.in_done || !chain.out_done {
            return Err(StepRefused::Misfit(Misfit::HalfMissing));
        }
        self.end_chain(id, Answer::Fine)?;
        Ok(())
    }

    fn cancel(&mut self, id: CallId) -> Result<(), StepRefused>
        ensures ok { OnOk result (step self.old (Cancel id) ≡ Ok self.new) }
        ensures misfit { IfErr result (RefusedAs (step self.old (Cancel id))) }
        ensures err { OnErr result (self.new ≡ self.old) }
    {
        let Some(chain) = self.pend.get(id) else {
            return Err(StepRefused::Misfit(Misfit::NotPending));
        };
        if chain.in_done || chain.out_done {
            return Err(StepRefused::Misfit(Misfit::HalfDone));
        }
        self.end_chain(id, Answer::Cancelled)?;
        Ok(())
    }

    fn read(&mut self, alloc: Global, id: CallId, m: u64) -> Result<(), StepRefused>
        ensures ok { OnOk result (step self.old (Read id m) ≡ Ok self.new) }
        ensures misfit { IfErr result (RefusedAs (step self.old (Read id m))) }
        ensures err { OnErr result (self.new ≡ self.old) }
    {
        let Some(call) = self.calls.get(id) else {
            return Err(StepRefused::Misfit(Misfit::NotOpen));
        };
        let CallState::Open = &call.state else {
            return Err(StepRefused::Misfit(Misfit::NotOpen));
        };
        match &call.op {
            Op::Read(query) => {
                if m < call.moment || m > self.track.now() {
                    return Err(StepRefused::Misfit(Misfit::BadMoment));
                }
                let view = self.track.view_at(alloc, m, query)?;
                self.end_call(id, Answer::Shown(view))?;
                Ok(())
            }
            _ => Err(StepRefused::Misfit(Misfit::WrongKind)),
        }
    }

    fn reply(&mut self, id: CallId, answer: Answer) -> Result<(), StepRefused>
        ensures ok { OnOk result (step self.old (Reply id answer) ≡ Ok self.new) }
        ensures misfit { IfErr result (RefusedAs (step self.old (Reply id answer))) }
        ensures err { OnErr result (self.new ≡ self.old) }
    {
        let Some(call) = self.calls.get(id) else {
            return Err(StepRefused::Misfit(Misfit::NotOpen));
        };
        let right = may_say(call, &answer);
        if call.said {
            return Err(StepRefused::Misfit(Misfit::NotOpen));
        }
        if !right {
            return Err(StepRefused::Misfit(Misfit::WrongAnswer));
        }
        self.track.reserve()?;
        self.calls.mark_said(id);
        self.track.note();
        Ok(())
    }

    /// One step of the machine.
    pub fn step(&mut self, alloc: Global, s: GStep) -> Result<(), StepRefused>
        ensures ok { OnOk result (step self.old s ≡ Ok self.new) }
        ensures misfit { IfErr result (RefusedAs (step self.old s)) }
        ensures err { OnErr result (self.new ≡ self.old) }
    {
        match s {
            GStep::Invoke(id, op) => self.invoke(id, op),
            GStep::Begin(id) => self.begin(alloc, id),
            GStep::Skip(id) => self.skip(alloc, id),
            GStep::Refuse(id) => self.refuse(alloc, id),
            GStep::InHalf(id) => self.write_in(alloc, id),
            GStep::OutHalf(id) => self.write_out(alloc, id),
            GStep::Settle(id) => self.settle(id),
            GStep::Cancel(id) => self.cancel(id),
            GStep::Vertex(id) => self.write_vertex(alloc, id),
            GStep::Read(id, m) => self.read(alloc, id, m),
            GStep::Reply(id, answer) => self.reply(id, answer),
        }
    }
}

/// Whether a call may be given an answer.
fn may_say(call: &Call, answer: &Answer) -> bool
    ensures { result ≡ is_right answer.now call.now }
{
    if is_done_with(answer, &call.state) {
        return true;
    }
    match answer {
        Answer::Pending => call.shown,
        Answer::Unknown => true,
        _ => false,
    }
}

fn is_done_with(answer: &Answer, state: &CallState) -> bool
    ensures { result ≡ is_done_with answer.now state.now }
{
    match state {
        CallState::Open => false,
        CallState::Begun => false,
        CallState::Done(said) => answer.equals(said),
    }
}
