//! Laws of every day.
ghost use Rattle.script_model.specs.Laws.{DaysAreRuns, MayEndAnywhere, DriversWait, ScriptsAreRuns};
ghost use Rattle.script_model.specs.Worked.{IsSpaceMade, AreReplicasMade, IsRound, StartsBefore, IsCut};

/// The doings of a day are a run of the world.
pub fn days_are_runs()
    ensures { DaysAreRuns }
{}

/// A day may end anywhere: what comes first in it is a day.
pub fn days_may_end_anywhere()
    ensures { MayEndAnywhere }
{}

/// A driver's own doing stands at a quiet point, or beside the one before.
pub fn drivers_wait_for_quiet()
    ensures { DriversWait }
{}

/// A run that follows a script is a run of the world.
pub fn scripts_are_runs()
    ensures { ScriptsAreRuns }
{}

/// Lines worked by hand: what a new space, a Round and a line behind collected statements give to do, and what a cut takes.
pub fn worked_lines()
    ensures space { IsSpaceMade }
    ensures replicas { AreReplicasMade }
    ensures round { IsRound }
    ensures starts { StartsBefore }
    ensures cut { IsCut }
{}
