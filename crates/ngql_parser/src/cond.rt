//! Conditions: read by a loop over levels, a level for each pair of brackets that is open, so that no depth of brackets takes
//! a stack of calls.
ghost use Rattle.std.specs.Prelude.{◌≡◌, ◌-◌, ◌≤◌, [], ◌∷◌, ◌++◌, length, OnOk};
ghost use Rattle.ngql_parser.specs.Conds as spec;
ghost use Rattle.ngql_parser.specs.Gives.{Gives};
ghost use Rattle.ngql_parser.specs.Rules as rule;
ghost use Rattle.ngql_syntax.specs.declared.cond.RawStep.TheVariants as step;

use crate::exprs::read_edge_expr;
use crate::kind::Kind;
use crate::leaves::{behind_word, read_lit, read_word};
use crate::level::{Coming, Level};
use crate::refusal::Refusal;
use crate::token::Token;
use lists::{Listed, NoMemory};
use ngql_syntax::{RawCond, RawStep, Rel};
use std::alloc::Global;

#[tactic(auto, unfolding(crate::specs::Rules::rel_of))]
fn read_rel(d: usize, tokens: &[Token]) -> Result<(Rel, &[Token]), Refusal>
    ensures { Gives result (rule.reads d rule.rel_of tokens.now) }
{
    let Some((first, rest)) = tokens.split_first() else {
        return Err(Refusal::Misfit(false, tokens));
    };
    match first.kind {
        Kind::Eq => Ok((Rel::Eq, rest)),
        Kind::Ne => Ok((Rel::Ne, rest)),
        Kind::Lt => Ok((Rel::Lt, rest)),
        Kind::Le => Ok((Rel::Le, rest)),
        Kind::Gt => Ok((Rel::Gt, rest)),
        Kind::Ge => Ok((Rel::Ge, rest)),
        _ => Err(Refusal::Misfit(false, tokens)),
    }
}

/// A comparison.
#[tactic(auto, unfolding(crate::specs::Rules::test_step))]
fn read_test(alloc: Global, d: usize, tokens: &[Token]) -> Result<(RawStep, &[Token]), Refusal>
    ensures { Gives result (rule.reads d rule.test_step tokens.now) }
{
    let (expr, rest) = read_edge_expr(alloc, d, tokens)?;
    let (rel, rest) = read_rel(d, rest)?;
    let (lit, rest) = read_lit(alloc, d, rest)?;
    Ok((RawStep::Test(expr, rel, lit), rest))
}

/// Puts a NOT for each step back that is gone.
fn put_nots(made: &mut RawCond, left: usize, d: usize) -> Result<(), NoMemory>
    ensures { OnOk result (made.new ≡ spec.with_nots (d - left) made.old) }
{
    'nots: for _turn in left..d {
        made.push(RawStep::Not)?;
    }
    Ok(())
}

/// A condition that is being read.
#[derive(Drop)]
struct CondReader {
    /// The levels around the innermost, from the outermost.
    outer: Vec<Level>,
    /// The innermost level.
    level: Level,
    /// The steps of what was read.
    made: RawCond,
}

impl CondReader {
    /// Nothing is read yet. So many steps may lead back to a condition.
    fn new(alloc: Global, d: usize) -> CondReader
        ensures level { result.level ≡ spec.fresh d }
        ensures outer { result.outer.items ≡ [] }
        ensures made { result.made ≡ [] }
    {
        CondReader {
            outer: Vec::new(alloc),
            level: Level::fresh(d),
            made: Listed::new(alloc),
        }
    }

    /// Puts a NOT for each that stands before the condition that was read, and then the AND.
    fn end_not(&mut self) -> Result<(), NoMemory>
        ensures made { OnOk result (self.new.made ≡ spec.with_step self.old.level.has_ands step.And (spec.with_nots (self.old.level.d - self.old.level.left) self.old.made)) }
        ensures level { self.new.level ≡ self.old.level }
        ensures outer { self.new.outer.items ≡ self.old.outer.items }
    {
        put_nots(&mut self.made, self.level.left, self.level.d)?;
        if self.level.has_ands {
            self.made.push(RawStep::And)?;
        }
        Ok(())
    }

    /// Puts the OR before the conditions between ANDs that were read.
    fn end_ands(&mut self) -> Result<(), NoMemory>
        ensures made { OnOk result (self.new.made ≡ spec.with_step self.old.level.has_ors step.Or self.old.made) }
        ensures level { self.new.level ≡ self.old.level }
        ensures outer { self.new.outer.items ≡ self.old.outer.items }
    {
        if self.level.has_ors {
            self.made.push(RawStep::Or)?;
        }
        Ok(())
    }

    /// Ends the conditions that are whole behind one that was read, from the innermost level out, and says what comes.
    fn end_levels<'a>(&mut self, tokens: &'a [Token]) -> Result<Coming<'a>, Refusal<'a>>
        ensures comes { spec.Comes result self.new.outer.items self.new.level self.new.made (spec.behind_not self.old.level (spec.reads_on self.old.outer.items) self.old.made tokens.now) }
        ensures nearer { spec.IsNearer result self.new.level (length tokens.now) }
    {
        let mut rest = tokens;
        'levels: loop {
            self.end_not()?;
            if let Some(next) = behind_word(rest, Kind::And) {
                self.level = self.level.after_and()?;
                return Ok(Coming::Further(next));
            }
            self.end_ands()?;
            if let Some(next) = behind_word(rest, Kind::Or) {
                self.level = self.level.after_or()?;
                return Ok(Coming::Further(next));
            }
            let Some(level) = self.outer.pop() else {
                return Ok(Coming::End(rest));
            };
            let (_, behind) = match read_word(level.d, rest, Kind::Close) {
                Ok(read) => read,
                Err(e) => return Err(e),
            };
            self.level = level;
            rest = behind;
        }
    }

    /// Begins the level of a condition in brackets, with so many steps back.
    fn open_level(&mut self, d: usize) -> Result<(), NoMemory>
        ensures level { OnOk result (self.new.level ≡ spec.fresh d) }
        ensures outer { OnOk result (self.new.outer.items ≡ self.old.outer.items ++ self.old.level ∷ []) }
        ensures made { self.new.made ≡ self.old.made }
    {
        self.outer.push(self.level)?;
        self.level = Level::fresh(d);
        Ok(())
    }

    /// Reads a NOT, a bracket that opens or a comparison, and says what comes.
    fn read_on<'a>(&mut self, alloc: Global, tokens: &'a [Token]) -> Result<Coming<'a>, Refusal<'a>>
        requires { self.old.level.left ≤ self.old.level.d }
        ensures comes { spec.Comes result self.new.outer.items self.new.level self.new.made (spec.from_not self.old.level (spec.reads_on self.old.outer.items) self.old.made tokens.now) }
        ensures nearer { spec.IsNearer result self.new.level (length tokens.now) }
    {
        if self.level.left == 0 {
            return Err(Refusal::Spent);
        }
        let left = self.level.left - 1;
        if let Some(next) = behind_word(tokens, Kind::Not) {
            self.level.left = left;
            return Ok(Coming::Further(next));
        }
        if let Some(next) = behind_word(tokens, Kind::Open) {
            self.open_level(left)?;
            return Ok(Coming::Further(next));
        }
        let (test, rest) = match read_test(alloc, left, tokens) {
            Ok(read) => read,
            Err(e) => return Err(e),
        };
        self.made.push(test)?;
        self.end_levels(rest)
    }
}

/// A condition.
pub fn read_cond(alloc: Global, d: usize, tokens: &[Token]) -> Result<(RawCond, &[Token]), Refusal>
    ensures { Gives result (rule.reads d rule.cond tokens.now) }
{
    let mut reader = CondReader::new(alloc, d);
    let mut rest = tokens;
    'conditions: loop {
        let coming = match reader.read_on(alloc, rest) {
            Ok(coming) => coming,
            Err(e) => return Err(e),
        };
        let next = match coming {
            Coming::Further(next) => next,
            Coming::End(behind) => {
                let CondReader { made, .. } = reader;
                return Ok((made, behind));
            }
        };
        rest = next;
    }
}
