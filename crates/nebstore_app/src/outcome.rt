//! What a run came to, and the exit status that says so.
ghost use Rattle.std.specs.Prelude.{◌≡◌};

/// What a run came to.
#[derive(Clone, Copy)]
pub enum Outcome {
    /// The words are wrong, and nothing was read.
    WrongWords,
    /// The source was read to its end, and all lines are answered.
    Ended,
    /// The source failed; the whole lines before are answered.
    SourceFailed,
    /// The sink failed.
    SinkFailed,
    /// There was no memory left.
    NoMemory,
    /// The script has more bytes than count; the whole lines within these are answered.
    TooLong,
}

impl Outcome {
    ghost use Rattle.nebstore_app.specs.Outcome.{status_of};

    /// The exit status of the program.
    pub fn status(self) -> u8
        ensures { result ≡ status_of self }
    {
        match self {
            Outcome::Ended => 0,
            Outcome::WrongWords => 2,
            Outcome::SourceFailed => 3,
            Outcome::SinkFailed => 4,
            Outcome::NoMemory => 5,
            Outcome::TooLong => 6,
        }
    }
}
