//! How far a condition has been read.
ghost use Rattle.std.specs.Prelude.{◌≡◌, ◌<◌, ◌-◌, IfOk, IfErr};
ghost use Rattle.ngql_parser.specs.Conds as spec;
ghost use Rattle.ngql_parser.specs.declared.refusal.Refusal.TheVariants as refusal;

use crate::refusal::Refusal;
use crate::token::Token;

/// How far a condition has been read on a level: between a pair of brackets.
#[derive(Clone, Copy)]
pub struct Level {
    /// The steps back to a condition that the level began with.
    pub d: usize,
    /// Those that are left: one less for each NOT before the condition that comes.
    pub left: usize,
    /// How many further conditions there may be between ANDs.
    pub ands: usize,
    /// How many further lists of them there may be between ORs.
    pub ors: usize,
    /// Whether an AND stands before the condition that comes.
    pub has_ands: bool,
    /// Whether an OR stands before the list that comes.
    pub has_ors: bool,
}

impl Level {
    /// A level of which nothing is read yet.
    pub fn fresh(d: usize) -> Level
        ensures { result ≡ spec.fresh d }
    {
        Level {
            d,
            left: d,
            ands: d.saturating_sub(1),
            ors: d.saturating_sub(1),
            has_ands: false,
            has_ors: false,
        }
    }

    /// The level behind an AND.
    pub fn after_and<'a>(self) -> Result<Level, Refusal<'a>>
        ensures ok { IfOk result (λ l. (l ≡ spec.after_and self) × (0 < self.ands)) }
        ensures spent { IfErr result (λ e. (e ≡ refusal.Spent) × (self.ands ≡ 0)) }
    {
        if self.ands == 0 {
            return Err(Refusal::Spent);
        }
        Ok(Level {
            left: self.d,
            ands: self.ands - 1,
            has_ands: true,
            ..self
        })
    }

    /// The level behind an OR.
    pub fn after_or<'a>(self) -> Result<Level, Refusal<'a>>
        ensures ok { IfOk result (λ l. (l ≡ spec.after_or self) × (0 < self.ors)) }
        ensures spent { IfErr result (λ e. (e ≡ refusal.Spent) × (self.ors ≡ 0)) }
    {
        if self.ors == 0 {
            return Err(Refusal::Spent);
        }
        Ok(Level {
            ors: self.ors - 1,
            has_ors: true,
            ..Level::fresh(self.d)
        })
    }
}

/// What comes behind conditions that were read.
#[derive(Clone, Copy)]
pub enum Coming<'a> {
    /// A further condition begins with these tokens.
    Further(&'a [Token]),
    /// None: these tokens are behind the whole.
    End(&'a [Token]),
}
