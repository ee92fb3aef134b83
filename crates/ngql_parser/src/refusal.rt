//! Why tokens aren't read.
ghost use Rattle.std.specs.Prelude.{◌≡◌};
ghost use Rattle.ngql_parser.specs.declared.refusal.Refusal.TheVariants as refusal;

use crate::token::Token;
use lists::NoMemory;

/// Why tokens aren't read.
#[derive(Clone, Copy)]
pub enum Refusal<'a> {
    /// There was no memory left.
    NoMemory,
    /// The reading was cut off.
    Spent,
    /// A misfit, of the limits alone or of the grammar, and the tokens from it on.
    Misfit(bool, &'a [Token]),
}

impl From<NoMemory> for Refusal<'_> {
    ghost from_gives = { λ _ e. e ≡ refusal.NoMemory };

    fn from(_e: NoMemory) -> Self {
        Refusal::NoMemory
    }
}
