//! Why a line has no tokens.
ghost use Rattle.std.specs.Prelude.{◌≡◌};
ghost use Rattle.ngql_lex.specs.declared.refused.LexRefused.TheVariants as refused;

use lists::NoMemory;
use thiserror::Error;

/// Why a line has no tokens.
#[derive(Debug, Drop, Error)]
pub enum LexRefused {
    /// No token begins at this byte of the line, counted from 1, or, in a text, it isn't UTF-8.
    #[error("no token begins at byte {0}")]
    BadToken(u32),
    /// There was no memory left.
    #[error("out of memory")]
    NoMemory,
}

impl From<NoMemory> for LexRefused {
    ghost from_gives = { λ _ e. e ≡ refused.NoMemory };

    fn from(_e: NoMemory) -> Self {
        LexRefused::NoMemory
    }
}
