//! A script is answered, line by line.
ghost use Rattle.std.specs.Prelude.{◌≡◌, ◌≤◌, ◌<◌, ◌+◌, ◌∷◌, [], List, IfOk, IfErr, OnOk, OnErr, length, IfSome, IfNone, false};
ghost use Rattle.first_graph.specs.declared.answer.Answer.{Answer};
ghost use Rattle.first_script.specs.Answers.{line_answers};
ghost use Rattle.first_script.specs.Works.{works, op_of};
ghost use Rattle.first_script.specs.Print.{print, print_line};
ghost use Rattle.first_script.specs.declared.line_answer.LineAnswer.{LineAnswer};
ghost use Rattle.outside_io.specs.Bytes.{Appends, AppendsFront};
ghost use Rattle.nebstore_app.specs.World.{start, IsReached};
ghost use Rattle.nebstore_app.specs.Calls.{IsQuiet};
ghost use Rattle.nebstore_app.specs.Stopped.{StopCounts};
ghost use Rattle.nebstore_app.specs.Answering.{lines_by, AnswersLine, LeavesLine, StopsLine, IsAnswered, IsPartlyAnswered, printed};

use crate::stopped::Stopped;
use crate::world::World;
use first_script::{
    Awaited, LineAnswer, Work, answer_of, next_line, next_whole_line, op_of, print_line, read_line,
};
use lists::NoMemory;
use outside_io::{Sink, write_all};
use std::alloc::Global;

/// What a line is answered, once its call, if it has one, is. Refused for want of memory alone: then the call may be
/// made and answered or not.
fn answer_line(alloc: Global, world: &mut World, work: &Work) -> Result<LineAnswer, NoMemory>
    requires { IsQuiet world.old }
    ensures answered { IfOk result (AnswersLine world.old world.new work.now) }
    ensures left { OnErr result ((answers : List Answer) × LeavesLine world.old world.new work.now answers) }
{
    match work {
        Work::Ready => Ok(LineAnswer::Fine),
        Work::Refused => Ok(LineAnswer::Syntax),
        Work::Call(statement) => {
            let op = op_of(alloc, statement)?;
            let answer = world.call(alloc, op)?;
            answer_of(alloc, statement, &answer)
        }
    }
}

/// One line is answered, and its answer is written. Where it isn't, a front of the answer may be written.
fn run_line<K: Sink>(
    alloc: Global,
    sink: &mut K,
    world: &mut World,
    number: u64,
    work: &Work,
) -> Result<(), Stopped>
    requires { IsQuiet world.old }
    ensures answered { OnOk result ((a : LineAnswer) × AnswersLine world.old world.new work.now a × Appends (K.written sink.old) (print_line number a) (K.written sink.new)) }
    ensures steady { OnOk result (K.faults sink.new ≡ K.faults sink.old) }
    ensures left { OnErr result (StopsLine world.old world.new number work.now (K.written sink.old) (K.written sink.new)) }
    ensures why { IfErr result (λ why. StopCounts why (K.faults sink.old) (K.faults sink.new)) }
{
    let answer = answer_line(alloc, world, work)?;
    let mut text = Vec::new(alloc);
    print_line(&mut text, number, &answer)?;
    write_all(sink, text.as_slice())?;
    Ok(())
}

/// The first line and what stands behind it; of a script that was cut off, where an LF ends it.
fn line_by(cut: bool, rest: &[u8]) -> Option<(&[u8], &[u8])>
    ensures found { IfSome result (λ next. lines_by cut rest.now ≡ next.0.now ∷ lines_by cut next.1.now) }
    ensures shorter { IfSome result (λ next. length next.1.now < length rest.now) }
    ensures none { IfNone result (lines_by cut rest.now ≡ []) }
{
    if cut {
        next_whole_line(rest)
    } else {
        next_line(rest)
    }
}

/// All lines of a script are answered, in order, and the answers are written. Where that stops, a front of the
/// answers is written.
pub(crate) fn run_lines<K: Sink>(
    alloc: Global,
    sink: &mut K,
    world: &mut World,
    script: &[u8],
    cut: bool,
) -> Result<(), Stopped>
    requires { world.old ≡ start }
    ensures reached { IsReached world.new }
    ensures answered { OnOk result ((answers : List Answer) × IsAnswered (works (lines_by cut script.now)) world.new.events answers × Appends (K.written sink.old) (printed (works (lines_by cut script.now)) answers) (K.written sink.new)) }
    ensures steady { OnOk result (K.faults sink.new ≡ K.faults sink.old) }
    ensures left { OnErr result ((answers : List Answer) × IsPartlyAnswered (works (lines_by cut script.now)) world.new.events answers × AppendsFront (K.written sink.old) (printed (works (lines_by cut script.now)) answers) (K.written sink.new)) }
    ensures why { IfErr result (λ why. StopCounts why (K.faults sink.old) (K.faults sink.new)) }
{
    let mut rest = script;
    let mut awaited = Awaited::Space;
    let mut number = 1;
    while let Some((line, behind)) = line_by(cut, rest) {
        let (work, next) = read_line(awaited, line);
        run_line(alloc, sink, world, number, &work)?;
        rest = behind;
        awaited = next;
        number += 1;
    }
    Ok(())
}
