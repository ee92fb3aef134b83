//! Whether a condition holds of an edge that was found.
ghost use Rattle.std.specs.Prelude.{◌≡◌, IfOk, OnOk};
ghost use Rattle.shown_rows.specs.Conditions as spec;
ghost use Rattle.shown_rows.specs.Rows.{is_kept};

use crate::answers::Answers;
use crate::comparisons::meets;
use crate::values::value_of;
use graph_model::Found;
use lists::NoMemory;
use schema_book::{Book, Cond, Step};
use std::alloc::Global;

/// Whether WHERE keeps an edge; it does where none stands. Refused for want of memory alone.
#[tactic(auto, unfolding(crate::specs::Rows::is_kept))]
pub fn is_kept(
    alloc: Global,
    book: &Book,
    keep: &Option<Cond>,
    found: &Found,
) -> Result<bool, NoMemory>
    ensures { IfOk result (λ kept. kept ≡ is_kept book.now.edges keep.now found.now) }
{
    match keep {
        Some(steps) => holds(alloc, book, found, steps.as_slice()),
        None => Ok(true),
    }
}

fn holds(alloc: Global, book: &Book, found: &Found, steps: &[Step]) -> Result<bool, NoMemory>
    ensures { IfOk result (λ answer. answer ≡ spec.holds book.now.edges found.now steps.now) }
{
    let mut answers = Answers::new(alloc);
    for step in steps {
        make(alloc, book, found, step, &mut answers)?;
    }
    Ok(answers.last())
}

/// Makes a step over the answers. Refused for want of memory alone.
fn make(
    alloc: Global,
    book: &Book,
    found: &Found,
    step: &Step,
    answers: &mut Answers,
) -> Result<(), NoMemory>
    ensures { OnOk result (answers.new ≡ spec.stepped book.now.edges found.now answers.old step.now) }
{
    match step {
        Step::Test(expr, rel, literal) => {
            let value = value_of(alloc, book, &None, found, expr)?;
            answers.put(meets(*rel, &value, literal))
        }
        Step::Not => answers.turn(),
        Step::And => answers.join_and(),
        Step::Or => answers.join_or(),
    }
}
