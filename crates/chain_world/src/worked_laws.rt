//! Runs worked by hand; the statements stand in `specs/WorkedRun` and the files beside it.
ghost use Rattle.chain_world.specs.WorkedRun.{AreItsSteps, IsChainRun};
ghost use Rattle.chain_world.specs.WorkedLate.{AreLateRepeats, GiveNoStep};
ghost use Rattle.chain_world.specs.WorkedSeeing.{AreTwoLeaders, SeesNothingOld, SeesTheNew};
ghost use Rattle.chain_world.specs.WorkedFence.{AreGivenUp, IsFenceRun};
ghost use Rattle.chain_world.specs.WorkedDouble.{AreClosed, IsDoubleRun};

/// A chain of two edges runs from its call to its answer, and its graph steps are those of a chain.
pub fn worked_run()
    ensures run { IsChainRun }
    ensures steps { AreItsSteps }
{}

/// A chain is fenced by a later leader of policy Cancel before its Remote comes, and is given up; the late Remote writes
/// nothing.
pub fn worked_fence()
    ensures run { IsFenceRun }
    ensures steps { AreGivenUp }
{}

/// A chain of two edges whose call is given up is doubled by its leader, and the client told so; the next leader takes it up and
/// closes it.
pub fn worked_double()
    ensures run { IsDoubleRun }
    ensures steps { AreClosed }
{}

/// Of two leaders of one part at once the earlier one, which hasn't applied all that is decided, cannot answer a read, and the
/// later one answers with what was written.
pub fn worked_seeing()
    ensures run { AreTwoLeaders }
    ensures old { SeesNothingOld }
    ensures new { SeesTheNew }
{}

/// A Request and a Remote that come once more, behind the end of their chain, give no step.
pub fn worked_late()
    ensures run { AreLateRepeats }
    ensures steps { GiveNoStep }
{}
