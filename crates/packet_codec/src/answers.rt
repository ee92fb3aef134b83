//! Answers of calls.
ghost use Rattle.std.specs.Prelude.{◌≡◌, ◌++◌, OnOk};
ghost use Rattle.byte_fields.specs.Reading.{Gives};
ghost use Rattle.packet_codec.specs.Spelling.{answer};
ghost use Rattle.packet_codec.specs.Fits.{HasSpellingAnswer, FitsAnswer};
ghost use Rattle.packet_codec.specs.Reading.{answer_at};

use crate::tags::{
    CANCELLED_ANSWER, CONFLICT_ANSWER, FINE_ANSWER, PENDING_ANSWER, SHOWN_ANSWER, SKIPPED_ANSWER,
};
use byte_fields::{Misfit, ReadRefused, Writer};
use graph_bytes::{IdForm, put_call, put_view, read_call, read_view};
use graph_model::Answer;
use lists::NoMemory;
use std::alloc::Global;

// An answer, and the bytes after it.
#[tactic(auto, unfolding(crate::specs::Reading::answer_at, byte_fields::specs::Reading::byte_at, byte_fields::specs::Reading::made_at))]
pub(crate) fn read_answer(alloc: Global, bytes: &[u8]) -> Result<(Answer, &[u8]), ReadRefused>
    ensures { Gives (λ x. (x.0, x.1.now)) result (answer_at bytes.now) }
{
    match bytes {
        [FINE_ANSWER, rest @ ..] => Ok((Answer::Fine, rest)),
        [SKIPPED_ANSWER, rest @ ..] => Ok((Answer::Skipped, rest)),
        [PENDING_ANSWER, rest @ ..] => Ok((Answer::Pending, rest)),
        [CANCELLED_ANSWER, rest @ ..] => Ok((Answer::Cancelled, rest)),
        [CONFLICT_ANSWER, rest @ ..] => {
            let (id, rest) = read_call(rest)?;
            Ok((Answer::Conflict(id), rest))
        }
        [SHOWN_ANSWER, rest @ ..] => {
            let (view, rest) = match read_view(alloc, rest, IdForm::Tagged) {
                Ok(found) => found,
                Err(refused) => return Err(refused),
            };
            Ok((Answer::Shown(view), rest))
        }
        _ => Err(Misfit::at(bytes).into()),
    }
}

// Puts an answer.
pub(crate) fn put_answer(out: &mut Writer, given: &Answer) -> Result<(), NoMemory>
    requires { HasSpellingAnswer given.now }
    ensures ok { OnOk result (out.new ≡ out.old ++ answer given.now) }
    ensures fits { OnOk result (FitsAnswer given.now) }
{
    match given {
        Answer::Fine => out.put_byte(FINE_ANSWER),
        Answer::Skipped => out.put_byte(SKIPPED_ANSWER),
        Answer::Pending => out.put_byte(PENDING_ANSWER),
        Answer::Cancelled => out.put_byte(CANCELLED_ANSWER),
        Answer::Conflict(id) => {
            out.put_byte(CONFLICT_ANSWER)?;
            put_call(out, id)
        }
        Answer::Shown(view) => {
            out.put_byte(SHOWN_ANSWER)?;
            put_view(out, view, IdForm::Tagged)
        }
        Answer::Unknown => unreachable!(),
    }
}
