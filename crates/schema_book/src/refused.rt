//! Why a statement isn't taken.
ghost use Rattle.std.specs.Prelude.{◌≡◌};
ghost use Rattle.schema_book.specs.Refusals.{told_of};

use lists::{NoMemory, Text};
use thiserror::Error;

/// Why a statement isn't taken.
#[derive(Debug, Drop, Error)]
pub enum BookRefused {
    /// There is no space.
    #[error("there is no space")]
    NoSpace,
    /// There is another space.
    #[error("there is another space")]
    OneSpace,
    /// The space has nothing of this name, or what was named has no column of this name.
    #[error("a name stands for nothing")]
    NoSuchName(Text),
    /// The name is taken, or stands twice.
    #[error("a name is taken, or stands twice")]
    NameTaken(Text),
    /// A value doesn't fit its column; an id is one of the column `vid`.
    #[error("a value doesn't fit its column")]
    WrongType(Text),
    /// The values whose `(` stands here aren't as many as the columns.
    #[error("the values at byte {0} aren't as many as the columns")]
    WrongCount(u32),
    /// The column isn't listed, has no DEFAULT and takes no NULL.
    #[error("a column has no value")]
    NotSet(Text),
    /// The text id that stands here is too long.
    #[error("the text id at byte {0} is too long")]
    LongId(u32),
    /// What stands here is one too many.
    #[error("what stands at byte {0} is one too many")]
    TooMany(u32),
    /// There was no memory left.
    #[error("out of memory")]
    NoMemory,
}

/// Why a step of taking a statement ends.
#[derive(Drop)]
pub enum Stop {
    /// The statement isn't taken.
    Refused(BookRefused),
    /// There was no memory left.
    NoMemory,
}

impl From<NoMemory> for Stop {
    ghost use Rattle.std.specs.Prelude.{◌≡◌};
    ghost use Rattle.schema_book.specs.declared.refused.Stop.TheVariants.{NoMemory};

    ghost from_gives = { λ _ e. e ≡ NoMemory };

    fn from(_e: NoMemory) -> Stop {
        Stop::NoMemory
    }
}

impl Stop {
    /// What is told.
    pub fn told(self) -> BookRefused
        ensures { result ≡ told_of self }
    {
        match self {
            Stop::Refused(why) => why,
            Stop::NoMemory => BookRefused::NoMemory,
        }
    }
}
