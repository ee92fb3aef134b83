//! Laws of a client and its statements.
ghost use Rattle.std.specs.Prelude.{List};
ghost use Rattle.graph_model.specs.declared.answer.Answer.{Answer};
ghost use Rattle.graph_model.specs.declared.answer.Answer.TheVariants.{Conflict, Cancelled, Unknown};
ghost use Rattle.graph_model.specs.declared.call_id.CallId.{CallId};
ghost use Rattle.statement_run.specs.Caller.{Open, Caller};
ghost use Rattle.statement_run.specs.Story.{Move, CallsInOrder};
ghost use Rattle.statement_run.specs.Kept.{Line, Ends, Kept};
ghost use Rattle.statement_run.specs.Laws.{StopsBehind, LeavesNext, FirstCounts, AnswersOpen, HearsAnswer, UsesHint, CountsOn, HoldsOpen, LeavesOpen, TellsEnded};

/// Behind Conflict, Cancelled or Unknown a statement makes no other call.
pub fn statements_stop()
    ensures conflict { (other : CallId) → StopsBehind (Conflict other) }
    ensures cancelled { StopsBehind Cancelled }
    ensures unknown { StopsBehind Unknown }
{}

/// A Reply leaves a client a call to make exactly where one comes next.
pub fn replies_leave()
    ensures { (c : Caller) (answer : Answer) → LeavesNext c answer }
{}

/// While no Reply is due, each Answer of the open call makes its Reply due, Shown for a read alone, and no other packet makes
/// one due; behind the first one no packet counts.
pub fn answers_count_once()
    ensures first { (c : Caller) → FirstCounts c }
    ensures fits { (c : Caller) → AnswersOpen c }
    ensures hears { (c : Caller) → HearsAnswer c }
{}

/// The calls that a client makes are those of its statements, one statement after another, each call once, by the answers of
/// the calls before it.
pub fn calls_in_order()
    ensures { (moves : List Move) → CallsInOrder moves }
{}

/// A Round uses up the hint of the call that it sends again; its count is one more below the last number, and stays at it.
pub fn rounds_count()
    ensures hint { (c : Caller) → UsesHint c }
    ensures count { (call : Open) → CountsOn call }
{}

/// A line whose statement hasn't ended has no answer, from when it is queued on, unless it is queued twice; one whose statement has
/// ended has the fold of its answers.
pub fn ends_are_told()
    ensures queued { (k : Kept) → HoldsOpen k }
    ensures waiting { (k : Kept) → LeavesOpen k }
    ensures ended { (lines : List Line) (ends : Ends) → TellsEnded lines ends }
{}
