//! A statement under way.
ghost use Rattle.std.specs.Prelude.{◌≡◌, ◌<◌, [], Some, IfOk};
ghost use Rattle.std.specs.List.{slice_get};
ghost use Rattle.std.specs.Option.{option_map};
ghost use Rattle.graph_model.specs.declared.op.Op.TheVariants.{Read};
ghost use Rattle.statement_run.specs.At.{IsAt};
ghost use Rattle.statement_run.specs.Call as call;
ghost use Rattle.statement_run.specs.Ending.{walk_ends};
ghost use Rattle.statement_run.specs.Statement.{is_last};
ghost use Rattle.traversal.specs.Trail as trail;
ghost use Rattle.traversal.specs.declared.walk.Walk.{Walk};

use crate::call::Begun;
use crate::ending::Ending;
use crate::tally::Tally;
use crate::walks::walked;
use graph_model::{Answer, CallId, Op, Query};
use lists::NoMemory;
use schema_book::{Bound, GoPlan};
use std::alloc::Global;
use traversal::{Views, Walk};

/// A statement: what it is bound to, by how many parts its calls are routed, and how far it is.
#[derive(Drop)]
pub struct Task {
    /// Its line.
    pub(crate) line: u64,
    pub(crate) parts: u32,
    pub(crate) bound: Bound,
    pub(crate) tally: Tally,
    /// Whether an answer ended it.
    pub(crate) stopped: bool,
    /// What its reads found, where it is a list of reads.
    pub(crate) views: Views,
    pub(crate) walk: Option<Walk>,
}

/// The walk of a statement that is one. Refused for want of memory alone.
fn walk_of(alloc: Global, bound: &Bound) -> Result<Option<Walk>, NoMemory>
    ensures { IfOk result (λ walk. IsAt bound.now [] walk []) }
{
    match bound {
        Bound::Go(plan) => {
            let types = plan.types.copy(alloc)?;
            let walk = Walk::new(alloc, plan.steps, plan.start.as_slice(), types, plan.way)?;
            Ok(Some(walk))
        }
        _ => Ok(None),
    }
}

/// How a walk ends that no answer ended.
fn walk_end(plan: GoPlan, walk: Walk) -> Ending
    ensures { result ≡ walk_ends plan walk }
{
    if walk.is_wide() {
        return Ending::Wide;
    }
    Ending::Walked(plan, walk.into_rows())
}

/// Whether an answer ends its statement.
pub(crate) fn ends(answer: &Answer) -> bool
    ensures { result ≡ is_last answer.now }
{
    match answer {
        Answer::Conflict(_) => true,
        Answer::Cancelled => true,
        Answer::Unknown => true,
        _ => false,
    }
}

impl Task {
    ghost use Rattle.std.specs.Prelude.{◌≡◌, ◌<◌, ◌+◌, ◌++◌, ◌∷◌, [], true, false, Some, OnOk, OnErr, IfOk};
    ghost use Rattle.graph_model.specs.declared.answer.Answer.TheVariants.{Unknown};
    ghost use Rattle.graph_model.specs.declared.op.Op.{Op};
    ghost use Rattle.statement_run.specs.Ending.{ending_of};
    ghost use Rattle.statement_run.specs.At.{IsAt};
    ghost use Rattle.statement_run.specs.Call.{IsReady};
    ghost use Rattle.statement_run.specs.Statement.{Running, starting, call_next, is_last};
    ghost use Rattle.statement_run.specs.Caller.{fits};
    ghost use Rattle.statement_run.specs.Bound.{statement_of};
    ghost use Rattle.statement_run.specs.Task.{Tells, fresh, behind};

    /// A statement before its first call. Refused for want of memory alone.
    pub(crate) fn new(alloc: Global, line: u64, parts: u32, bound: Bound) -> Result<Task, NoMemory>
        requires { 0 < parts }
        ensures tells { IfOk result (λ task. Tells task (starting (statement_of parts bound))) }
        ensures line { IfOk result (λ task. task.line ≡ line) }
        ensures parts { IfOk result (λ task. task.parts ≡ parts) }
        ensures bound { IfOk result (λ task. task.bound ≡ bound) }
    {
        let walk = walk_of(alloc, &bound)?;
        Ok(Task {
            line,
            parts,
            bound,
            tally: Tally::new(),
            stopped: false,
            views: Views::new(alloc),
            walk,
        })
    }

    /// Its next call. Refused for want of memory alone.
    pub(crate) fn ask(&self, alloc: Global) -> Result<Option<Op>, NoMemory>
        ensures { (r : Running) → Tells self.now r → IfOk result (λ op. op ≡ call_next r) }
    {
        if self.stopped {
            return Ok(None);
        }
        match &self.bound {
            Bound::Calls(ops) => op_at(alloc, ops.as_slice(), self.tally.calls as usize),
            Bound::Fetch(plan) => read_at(alloc, plan.reads.as_slice(), self.tally.calls as usize),
            Bound::Go(_) => need_of(alloc, &self.walk),
        }
    }

    /// An answer of its call, and then its next call, under a name, if one comes. Refused for want of memory alone, and then all is as
    /// it was.
    #[tactic(auto, using(crate::proofs::Telling::ends_behind, crate::proofs::Telling::not_ended, crate::proofs::Telling::at_its_end, crate::proofs::Tallies::stopped_none))]
    pub(crate) fn tell(
        &mut self,
        alloc: Global,
        id: CallId,
        answer: Answer,
    ) -> Result<Option<Begun>, NoMemory>
        requires asked { (r : Running) × (op : Op) × Tells self.old r × (call_next r ≡ Some op) × (fits answer op ≡ true) }
        ensures told { (r : Running) → Tells self.old r → OnOk result (Tells self.new (behind r answer)) }
        ensures next { (r : Running) → Tells self.old r → IfOk result (IsReady id self.old.parts (call_next (behind r answer))) }
        ensures parts { self.new.parts ≡ self.old.parts }
        ensures line { self.new.line ≡ self.old.line }
        ensures bound { self.new.bound ≡ self.old.bound }
        ensures err { OnErr result (self.new ≡ self.old) }
    {
        let Some(calls) = self.tally.calls.checked_add(1) else {
            return Err(NoMemory);
        };
        let stops = ends(&answer);
        let mut tally = self.tally;
        tally.note(&answer, calls);
        let next = if stops {
            None
        } else {
            self.follow(alloc, id, calls, answer)?
        };
        self.tally = tally;
        self.stopped = stops;
        Ok(next)
    }

    /// An Unknown of its call, which is the last of so many.
    #[tactic(auto, using(crate::proofs::Tallies::stopped_none, crate::proofs::Telling::ends_behind, crate::proofs::Telling::at_its_end))]
    pub(crate) fn give_up(&mut self, calls: u32)
        requires sound { (r : Running) × Tells self.old r }
        requires goes { self.old.stopped ≡ false }
        requires calls { calls ≡ self.old.tally.calls + 1 }
        ensures told { (r : Running) → Tells self.old r → Tells self.new (behind r Unknown) }
        ensures line { self.new.line ≡ self.old.line }
        ensures bound { self.new.bound ≡ self.old.bound }
    {
        self.tally.note(&Answer::Unknown, calls);
        self.stopped = true;
    }

    /// How it ends.
    pub(crate) fn ended(self) -> Ending
        requires { (r : Running) × Tells self r }
        ensures { (r : Running) → Tells self r → result ≡ ending_of self.bound r.answers }
    {
        let Task {
            bound,
            tally,
            views,
            walk,
            ..
        } = self;
        if let Some(ending) = tally.stopped() {
            return ending;
        }
        match (bound, walk) {
            (Bound::Calls(_), _) => tally.calls_end(),
            (Bound::Fetch(plan), _) => Ending::Fetched(plan, views),
            (Bound::Go(plan), Some(walk)) => walk_end(plan, walk),
            _ => unreachable!(),
        }
    }

    /// Its call behind an answer that doesn't end it, under a name; a walk goes on by what was found. Refused for want of memory
    /// alone, and then all is as it was.
    #[tactic(auto, using(crate::proofs::Telling::walk_more))]
    fn follow(
        &mut self,
        alloc: Global,
        id: CallId,
        calls: u32,
        answer: Answer,
    ) -> Result<Option<Begun>, NoMemory>
        requires asked { (r : Running) × (op : Op) × Tells self.old r × (call_next r ≡ Some op) × (fits answer op ≡ true) }
        requires goes { is_last answer ≡ false }
        requires calls { calls ≡ self.old.tally.calls + 1 }
        ensures at { (r : Running) → Tells self.old r → OnOk result (IsAt self.new.bound self.new.views self.new.walk (r.answers ++ answer ∷ [])) }
        ensures next { (r : Running) → Tells self.old r → IfOk result (IsReady id self.old.parts (call_next (behind r answer))) }
        ensures same { (self.new.parts ≡ self.old.parts) × (self.new.bound ≡ self.old.bound) × (self.new.line ≡ self.old.line) × (self.new.tally ≡ self.old.tally) × (self.new.stopped ≡ self.old.stopped) }
        ensures err { OnErr result (self.new ≡ self.old) }
    {
        match (&self.bound, &mut self.walk, answer) {
            (Bound::Calls(ops), _, _) => {
                let op = op_at(alloc, ops.as_slice(), calls as usize)?;
                ready(alloc, id, self.parts, op)
            }
            (Bound::Fetch(plan), _, Answer::Shown(view)) => {
                let op = read_at(alloc, plan.reads.as_slice(), calls as usize)?;
                let next = ready(alloc, id, self.parts, op)?;
                self.views.push(view)?;
                Ok(next)
            }
            (Bound::Go(plan), Some(walk), Answer::Shown(view)) => {
                walked(alloc, id, self.parts, plan, walk, view)
            }
            _ => unreachable!(),
        }
    }
}

/// A call, if one comes, ready to begin under a name. Refused for want of memory alone.
pub(crate) fn ready(
    alloc: Global,
    id: CallId,
    parts: u32,
    op: Option<Op>,
) -> Result<Option<Begun>, NoMemory>
    requires { 0 < parts }
    ensures { IfOk result (call.IsReady id parts op) }
{
    match op {
        Some(op) => Ok(Some(Begun::new(alloc, id, parts, op)?)),
        None => Ok(None),
    }
}

/// The call at a place. Refused for want of memory alone.
fn op_at(alloc: Global, ops: &[Op], place: usize) -> Result<Option<Op>, NoMemory>
    ensures { IfOk result (λ op. op ≡ slice_get ops.now place) }
{
    match ops.get(place) {
        Some(op) => Ok(Some(op.copy(alloc)?)),
        None => Ok(None),
    }
}

/// The read at a place. Refused for want of memory alone.
fn read_at(alloc: Global, reads: &[Query], place: usize) -> Result<Option<Op>, NoMemory>
    ensures { IfOk result (λ op. op ≡ option_map Read (slice_get reads.now place)) }
{
    match reads.get(place) {
        Some(query) => Ok(Some(Op::Read(query.copy(alloc)?))),
        None => Ok(None),
    }
}

/// The read that a walk needs. Refused for want of memory alone.
fn need_of(alloc: Global, walk: &Option<Walk>) -> Result<Option<Op>, NoMemory>
    ensures { (w : Walk) → walk.now ≡ Some w → IfOk result (λ op. op ≡ option_map Read (trail.need_of w)) }
{
    let Some(walk) = walk else {
        return Ok(None);
    };
    match walk.next_need(alloc)? {
        Some(query) => Ok(Some(Op::Read(query))),
        None => Ok(None),
    }
}
