//! The laws of every run.
ghost use Rattle.std.specs.Prelude.{◌≡◌, List, length};
ghost use Rattle.first_graph.specs.declared.graph_step.GStep.{GStep};
ghost use Rattle.first_graph.specs.Machine.{Machine, start, contents_at};
ghost use Rattle.first_graph.specs.Run.{Run};
ghost use Rattle.first_graph.specs.Laws.{HasEqualHalves, HasEachOnce, CancelsNoneAcknowledged, StaysVisible};

/// In every run an edge without a chain has equal halves.
pub fn equal_halves()
    ensures { (steps : List GStep) (g : Machine) → Run start steps g → HasEqualHalves g }
{}

/// In every run each call is moved at most once, and answered at most once.
pub fn once_each()
    ensures { (steps : List GStep) (g : Machine) → Run start steps g → HasEachOnce steps }
{}

/// In every run a call that is answered Fine or Pending is not cancelled, before or after.
pub fn acknowledged_never_cancelled()
    ensures { (before after : List GStep) (g h : Machine) → Run start before g → Run g after h → CancelsNoneAcknowledged before g after }
{}

/// In every run what a call wrote that was answered Fine is seen by each read invoked after that answer: at the
/// moment of the read it is there, unless another call began to write the same edge or vertex since.
pub fn acknowledged_stays_visible()
    ensures { (steps : List GStep) (g : Machine) → Run start steps g → StaysVisible steps g }
{}

/// In every run the contents at a moment are those of the graph after so many steps.
pub fn moments()
    ensures { (before after : List GStep) (g h : Machine) → Run start before g → Run g after h → contents_at h (length before) ≡ g.contents }
{}
