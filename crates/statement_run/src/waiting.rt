//! Statements that wait.
use crate::call::Begun;
use crate::task::{Task, ready};
use graph_model::CallId;
use lists::NoMemory;
use schema_book::Bound;
use std::alloc::Global;

/// A statement that waits, and its first call, which has no name yet.
#[derive(Drop)]
pub struct Waiting {
    pub(crate) task: Task,
    pub(crate) first: Option<Begun>,
}

impl Waiting {
    ghost use Rattle.std.specs.Prelude.{◌≡◌, ◌<◌, IfOk};
    ghost use Rattle.statement_run.specs.Statement.{starting};
    ghost use Rattle.statement_run.specs.Bound.{statement_of};
    ghost use Rattle.statement_run.specs.Task.{fresh};
    ghost use Rattle.statement_run.specs.Waiting.{Waits};

    /// A statement. Refused for want of memory alone.
    pub(crate) fn new(
        alloc: Global,
        line: u64,
        parts: u32,
        bound: Bound,
    ) -> Result<Waiting, NoMemory>
        requires { 0 < parts }
        ensures waits { IfOk result (λ waiting. Waits waiting) }
        ensures line { IfOk result (λ waiting. waiting.task.line ≡ line) }
        ensures bound { IfOk result (λ waiting. waiting.task.bound ≡ bound) }
        ensures fresh { IfOk result (λ waiting. fresh waiting.task ≡ starting (statement_of parts bound)) }
    {
        let task = Task::new(alloc, line, parts, bound)?;
        let unnamed = CallId {
            client: 0,
            number: 0,
        };
        let op = task.ask(alloc)?;
        let first = ready(alloc, unnamed, parts, op)?;
        Ok(Waiting { task, first })
    }
}
