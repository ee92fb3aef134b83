//! Why a line is no statement.
use thiserror::Error;

/// Why a line is no statement, with the place, counted from 1.
#[derive(Debug, Drop, Error)]
pub enum ParseRefused {
    /// No token begins there.
    #[error("no token begins at byte {0}")]
    BadToken(u32),
    /// What stands there fits no line.
    #[error("what stands at byte {0} fits no line")]
    Syntax(u32),
    /// A whole number that doesn't fit.
    #[error("the number at byte {0} is too wide")]
    NumberTooWide(u32),
    /// More than the limit allows.
    #[error("what stands at byte {0} is more than the limit allows")]
    TooMany(u32),
    /// An option with a value that isn't allowed, or one that stood before.
    #[error("the option at byte {0} is not allowed")]
    BadOption(u32),
    /// There was no memory left.
    #[error("out of memory")]
    NoMemory,
}
