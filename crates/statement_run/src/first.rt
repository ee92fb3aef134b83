//! Which of the statements that wait begins.
ghost use Rattle.std.specs.Prelude.{◌≡◌, [], ◌∷◌, IfSome, IfNone};
ghost use Rattle.std.specs.List.{AllByRecursion};
ghost use Rattle.statement_run.specs.Statement.{unended};
ghost use Rattle.statement_run.specs.Kept.{noted_in, line_of, lines_waiting};
ghost use Rattle.statement_run.specs.Waiting.{Waits, IsFirst, fresh_all};

use crate::call::Begun;
use crate::lines::Lines;
use crate::task::Task;
use crate::waiting::Waiting;
use graph_model::CallId;
use std::collections::VecDeque;

/// The first of these statements that has a call, which is to begin under this name. Those before it are over, and how they
/// ended is noted.
#[tactic(auto, using(crate::proofs::Rows::passed, crate::proofs::Rows::found))]
pub(crate) fn first_of(
    waiting: &mut VecDeque<Waiting>,
    lines: &mut Lines,
    id: CallId,
) -> Option<(Task, Begun)>
    requires { AllByRecursion Waits waiting.old.items }
    ensures none { IfNone result (unended (fresh_all waiting.old.items) ≡ []) }
    ensures some { IfSome result (λ x. IsFirst id waiting.old.items x.0 x.1 waiting.new.items) }
    ensures kept_none { IfNone result (noted_in (lines_waiting waiting.old.items) (fresh_all waiting.old.items) lines.old ≡ record { lines = []; ends = lines.new }) }
    ensures kept_some { IfSome result (λ x. noted_in (lines_waiting waiting.old.items) (fresh_all waiting.old.items) lines.old
        ≡ record { lines = line_of x.0 ∷ lines_waiting waiting.new.items; ends = lines.new }) }
{
    while let Some(next) = waiting.pop_front() {
        let Waiting { task, first } = next;
        if let Some(begun) = first {
            return Some((task, begun.named(id)));
        }
        lines.fill(task.line, task.ended());
    }
    None
}
