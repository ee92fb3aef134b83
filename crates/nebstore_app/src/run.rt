//! The top call.
ghost use Rattle.std.specs.Prelude.{◌≡◌, ◌≢◌, ◌↔◌, ◌++◌, ℕ, List, [], Bool, true, false};
ghost use Rattle.first_script.specs.Works.{works};
ghost use Rattle.outside_io.specs.Bytes.{TakesFront};
ghost use Rattle.nebstore_app.specs.World.{start, IsReached};
ghost use Rattle.nebstore_app.specs.Steps.{IsGraphRun};
ghost use Rattle.nebstore_app.specs.Answering.{lines_by};
ghost use Rattle.nebstore_app.specs.Outcome.{status_of, Says, RanTo};
ghost use Rattle.nebstore_app.specs.Report.{is_run, IsJournal, IsLawful};
ghost use Rattle.nebstore_app.specs.declared.outcome.Outcome.{Outcome};
ghost use Rattle.nebstore_app.specs.declared.outcome.Outcome.TheVariants.{WrongWords};

use crate::journal::Journal;
use crate::laws::lawful;
use crate::outcome::Outcome;
use crate::script::run_lines;
use crate::stopped::Stopped;
use crate::world::World;
use lists::Text;
use outside_io::{Sink, Source, Stop, read_up_to};
use std::alloc::Global;

/// The most bytes of a script that count.
const MOST_BYTES: usize = 16_777_216;

/// What a run came to.
#[derive(Drop)]
pub struct Report {
    /// The exit status: that of the run's [`Outcome`].
    pub status: u8,
    /// What was done.
    pub journal: Journal,
}

/// Runs a script: reads it from the source to its end, makes each statement's call in the store, and writes the
/// answer of each line to the sink. The words have to be `run` alone; else nothing is read or written.
pub fn run_script<S: Source, K: Sink>(
    alloc: Global,
    words: &[Text],
    source: &mut S,
    sink: &mut K,
) -> Report
    // The journal is a run of the world, and its graph steps are a run of the graph machine, whose trace is the
    // journal's invokes and replies; so the laws of every such run hold.
    ensures journal { IsJournal result.journal }
    ensures graph { IsGraphRun result.journal.events }
    ensures laws { IsLawful result.journal.events }

    // With wrong words, and only then, the status is 2, and nothing is read or written.
    ensures words { (result.status ≡ 2) ↔ (is_run words.now ≡ false) }
    ensures unread { result.status ≡ 2 → (source.new ≡ source.old) × (sink.new ≡ sink.old) × (result.journal.events ≡ []) }

    // A front of the source is read, and the status is that of an outcome, which says what came of it: the calls, in
    // order, each once, the bytes written, and the faults, of which none is invented and none is passed over.
    ensures outcome { (outcome : Outcome) × (result.status ≡ status_of outcome)
        × (read : List ℕ) × TakesFront (S.left source.old) read (S.left source.new)
        × Says outcome
        (record { read = read; left = S.left source.new; old_faults = S.faults source.old; new_faults = S.faults source.new })
        result.journal.events
        (record { old = K.written sink.old; new = K.written sink.new; old_faults = K.faults sink.old; new_faults = K.faults sink.new }) }
{
    lawful();
    let mut world = World::new(alloc);
    let outcome = run_words(alloc, words, source, sink, &mut world);
    Report {
        status: outcome.status(),
        journal: world.into_journal(),
    }
}

/// Runs the script, where the words are right.
fn run_words<S: Source, K: Sink>(
    alloc: Global,
    words: &[Text],
    source: &mut S,
    sink: &mut K,
    world: &mut World,
) -> Outcome
    requires { world.old ≡ start }
    ensures reached { IsReached world.new }
    ensures words { (result ≡ WrongWords) ↔ (is_run words.now ≡ false) }
    ensures unread { result ≡ WrongWords → (source.new ≡ source.old) × (sink.new ≡ sink.old) × (world.new.events ≡ []) }
    ensures outcome { (read : List ℕ) × TakesFront (S.left source.old) read (S.left source.new)
        × Says result
        (record { read = read; left = S.left source.new; old_faults = S.faults source.old; new_faults = S.faults source.new })
        world.new.events
        (record { old = K.written sink.old; new = K.written sink.new; old_faults = K.faults sink.old; new_faults = K.faults sink.new }) }
{
    if !is_run(words) {
        return Outcome::WrongWords;
    }
    run_source(alloc, source, sink, world)
}

/// Whether the words are `run` alone.
fn is_run(words: &[Text]) -> bool
    ensures { result ≡ is_run words.now }
{
    match words {
        [word] => word.as_slice() == b"run".as_slice(),
        _ => false,
    }
}

/// Reads the script and runs it.
fn run_source<S: Source, K: Sink>(
    alloc: Global,
    source: &mut S,
    sink: &mut K,
    world: &mut World,
) -> Outcome
    requires { world.old ≡ start }
    ensures reached { IsReached world.new }
    ensures right { result ≢ WrongWords }
    ensures outcome { (read : List ℕ) × TakesFront (S.left source.old) read (S.left source.new)
        × Says result
        (record { read = read; left = S.left source.new; old_faults = S.faults source.old; new_faults = S.faults source.new })
        world.new.events
        (record { old = K.written sink.old; new = K.written sink.new; old_faults = K.faults sink.old; new_faults = K.faults sink.new }) }
{
    let mut script = Vec::new(alloc);
    match read_up_to(source, &mut script, MOST_BYTES) {
        Stop::Ended => run_to(alloc, sink, world, script.as_slice(), false, Outcome::Ended),
        Stop::Failed => run_to(
            alloc,
            sink,
            world,
            script.as_slice(),
            true,
            Outcome::SourceFailed,
        ),
        Stop::Full => {
            script.truncate(MOST_BYTES);
            run_to(
                alloc,
                sink,
                world,
                script.as_slice(),
                true,
                Outcome::TooLong,
            )
        }
        Stop::NoMemory => Outcome::NoMemory,
    }
}

/// Runs a script that was read; `done` is the outcome where all lines are answered.
fn run_to<K: Sink>(
    alloc: Global,
    sink: &mut K,
    world: &mut World,
    script: &[u8],
    cut: bool,
    done: Outcome,
) -> Outcome
    requires { world.old ≡ start }
    ensures reached { IsReached world.new }
    ensures ran { RanTo done (works (lines_by cut script.now)) world.new.events
        (record { old = K.written sink.old; new = K.written sink.new; old_faults = K.faults sink.old; new_faults = K.faults sink.new }) result }
{
    match run_lines(alloc, sink, world, script, cut) {
        Ok(()) => done,
        Err(Stopped::SinkFailed) => Outcome::SinkFailed,
        Err(Stopped::NoMemory) => Outcome::NoMemory,
    }
}
