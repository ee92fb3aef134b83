//! Ids of vertices.
ghost use Rattle.std.specs.Prelude.{◌≡◌, ◌≤◌, ◌++◌, length, OnOk, IfOk};
ghost use Rattle.byte_fields.specs.Reading.{Reads};
ghost use Rattle.graph_bytes.specs.Names.{most_text, IsName};
ghost use Rattle.graph_bytes.specs.Spelling.{name, vid};
ghost use Rattle.graph_bytes.specs.Fits.{HasSpellingVid, FitsVid};
ghost use Rattle.graph_bytes.specs.Reading.{utf8_at, short_text_at, name_at, tagged_at, vid_at};

use crate::id_form::IdForm;
use crate::kinds::{NUMBER_ID, TEXT_ID};
use byte_fields::{Misfit, Writer, read_count, read_i64, read_run};
use graph_model::{Name, Vid};
use lists::NoMemory;

/// The most bytes of a text id.
const MOST_TEXT: u8 = 32;

/// `count` bytes that are UTF-8, and the bytes after them.
#[tactic(auto, unfolding(crate::specs::Reading::utf8_at, byte_fields::specs::Reading::such_at))]
pub fn read_utf8(bytes: &[u8], count: usize) -> Result<(&[u8], &[u8]), Misfit>
    ensures read { Reads (λ x. (x.0.now, x.1.now)) result (utf8_at count bytes.now) }
    ensures size { IfOk result (λ x. length x.0.now ≡ count) }
{
    let (run, after) = read_run(bytes, count)?;
    match str::from_utf8(run) {
        Ok(_) => Ok((run, after)),
        Err(_) => Err(Misfit::at(bytes)),
    }
}

// A text of at most 32 bytes behind its length.
#[tactic(auto, unfolding(crate::specs::Reading::short_text_at, byte_fields::specs::Reading::counted_at))]
fn read_short_text(bytes: &[u8]) -> Result<(&[u8], &[u8]), Misfit>
    ensures read { Reads (λ x. (x.0.now, x.1.now)) result (short_text_at bytes.now) }
    ensures short { IfOk result (λ x. length x.0.now ≤ most_text) }
{
    let (count, rest) = read_count(bytes, 0, MOST_TEXT)?;
    let (text, rest) = read_utf8(rest, count as usize)?;
    Ok((text, rest))
}

#[tactic(auto, unfolding(crate::specs::Reading::name_at, byte_fields::specs::Reading::made_at))]
fn read_name(bytes: &[u8]) -> Result<(Name, &[u8]), Misfit>
    ensures { Reads (λ x. (x.0, x.1.now)) result (name_at bytes.now) }
{
    let (text, rest) = read_short_text(bytes)?;
    Ok((Name::new(text), rest))
}

#[tactic(auto, unfolding(crate::specs::Reading::tagged_at, byte_fields::specs::Reading::byte_at, byte_fields::specs::Reading::made_at))]
fn read_tagged(bytes: &[u8]) -> Result<(Vid, &[u8]), Misfit>
    ensures { Reads (λ x. (x.0, x.1.now)) result (tagged_at bytes.now) }
{
    match bytes {
        [NUMBER_ID, rest @ ..] => {
            let (number, rest) = read_i64(rest)?;
            Ok((Vid::Num(number), rest))
        }
        [TEXT_ID, rest @ ..] => {
            match read_name(rest) {
                Ok((name, rest)) => Ok((Vid::Name(name), rest)),
                Err(misfit) => Err(misfit),
            }
        }
        _ => Err(Misfit::at(bytes)),
    }
}

/// An id, and the bytes after it. Refused at the first field that doesn't fit.
#[tactic(auto, unfolding(crate::specs::Reading::vid_at, byte_fields::specs::Reading::made_at))]
pub fn read_vid(bytes: &[u8], form: IdForm) -> Result<(Vid, &[u8]), Misfit>
    ensures { Reads (λ x. (x.0, x.1.now)) result (vid_at form bytes.now) }
{
    match form {
        IdForm::Bare => {
            let (number, rest) = read_i64(bytes)?;
            Ok((Vid::Num(number), rest))
        }
        IdForm::Tagged => read_tagged(bytes),
    }
}

fn put_name(out: &mut Writer, n: &Name) -> Result<(), NoMemory>
    requires { IsName n.now }
    ensures { OnOk result (out.new ≡ out.old ++ name n.now) }
{
    out.put_byte(n.len())?;
    out.put_run(n.as_slice())
}

/// Puts an id. After a refusal, which comes for want of memory alone, some of its fields may stand.
pub fn put_vid(out: &mut Writer, v: &Vid, form: IdForm) -> Result<(), NoMemory>
    requires { HasSpellingVid form v.now }
    ensures ok { OnOk result (out.new ≡ out.old ++ vid form v.now) }
    ensures fits { OnOk result (FitsVid form v.now) }
{
    match form {
        IdForm::Bare => match v {
            Vid::Num(number) => out.put_i64(*number),
            Vid::Name(_) => unreachable!(),
        },
        IdForm::Tagged => match v {
            Vid::Num(number) => {
                out.put_byte(NUMBER_ID)?;
                out.put_i64(*number)
            }
            Vid::Name(n) => {
                out.put_byte(TEXT_ID)?;
                put_name(out, n)
            }
        },
    }
}
