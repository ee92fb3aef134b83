//! What holds of every run of the world.
ghost use Rattle.std.specs.Prelude.{List};
ghost use Rattle.nebstore_app.specs.declared.event.Event.{Event};
ghost use Rattle.nebstore_app.specs.World.{World, start, Run};
ghost use Rattle.nebstore_app.specs.Steps.{IsGraphRun};
ghost use Rattle.nebstore_app.specs.Report.{IsLawful};

use first_graph::laws::{
    acknowledged_never_cancelled, acknowledged_stays_visible, equal_halves, once_each,
};

/// The graph steps of every run of the world are a run of the graph machine, whose trace is the run's invokes and
/// replies.
pub fn graph_run()
    ensures { (events : List Event) (w : World) → Run start events w → IsGraphRun events }
{}

/// Wherever the graph steps of a journal lead, the laws hold: an edge without a pending chain has equal halves; a call
/// acts at most once and is replied at most once; an acknowledged call is never cancelled; and what it wrote stays
/// visible until another call changes it.
pub fn lawful()
    ensures { (events : List Event) → IsLawful events }
{
    equal_halves();
    once_each();
    acknowledged_never_cancelled();
    acknowledged_stays_visible();
}
