//! Why a script is left before its end.
use lists::NoMemory;
use outside_io::Failed;

/// Why a script is left before its end.
#[derive(Clone, Copy)]
pub(crate) enum Stopped {
    /// The sink failed.
    SinkFailed,
    /// There was no memory left.
    NoMemory,
}

impl From<NoMemory> for Stopped {
    ghost use Rattle.std.specs.Prelude.{◌≡◌};
    ghost use Rattle.nebstore_app.specs.declared.stopped.Stopped.TheVariants.{NoMemory};

    ghost from_gives = { λ _ e. e ≡ NoMemory };

    fn from(_e: NoMemory) -> Stopped {
        Stopped::NoMemory
    }
}

impl From<Failed> for Stopped {
    ghost use Rattle.std.specs.Prelude.{◌≡◌};
    ghost use Rattle.nebstore_app.specs.declared.stopped.Stopped.TheVariants.{SinkFailed};

    ghost from_gives = { λ _ e. e ≡ SinkFailed };

    fn from(_e: Failed) -> Stopped {
        Stopped::SinkFailed
    }
}
