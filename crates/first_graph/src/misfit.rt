//! Why a step is not taken.
use lists::NoMemory;

/// The first condition of a step that doesn't hold.
#[derive(Clone, Copy, Debug, PartialEq, Eq)]
pub enum Misfit {
    /// The call was invoked before.
    KnownId,
    /// The call isn't open, or was replied.
    NotOpen,
    /// The call does something else.
    WrongKind,
    /// A chain is under way on the edge.
    EdgePending,
    /// No chain is under way on the edge.
    NotPending,
    /// The edge is there.
    RowThere,
    /// The edge isn't there.
    NoRow,
    /// That half was written before.
    HalfDone,
    /// One of the halves isn't written yet.
    HalfMissing,
    /// The moment lies before the call, or after now.
    BadMoment,
    /// The call may not be answered so.
    WrongAnswer,
}

/// Why a step was not taken.
#[derive(Clone, Copy, Debug, PartialEq, Eq)]
pub enum StepRefused {
    /// A condition of the step doesn't hold.
    Misfit(Misfit),
    /// There was no memory left.
    NoMemory,
}

impl From<NoMemory> for StepRefused {
    ghost use Rattle.std.specs.Prelude.{◌≡◌};
    ghost use Rattle.first_graph.specs.declared.misfit.StepRefused.TheVariants.{NoMemory};

    ghost from_gives = { λ _ e. e ≡ NoMemory };

    fn from(_e: NoMemory) -> StepRefused {
        StepRefused::NoMemory
    }
}
