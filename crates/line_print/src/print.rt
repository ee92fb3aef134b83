//! How the answer of a line is printed.
ghost use Rattle.std.specs.Prelude.{◌≡◌, ◌++◌, flat_map, codes, decimal, OnOk};
ghost use Rattle.line_print.specs.Print as spec;

use crate::line_answer::LineAnswer;
use crate::line_refused::LineRefused;
use graph_model::{CallId, Row, Val};
use itoa::Buffer;
use lists::{Listed, NoMemory};
use meta_parts::Stage;

/// Adds the answer of the line with this number (from 1) to what is printed, with its rows behind it, each line with its
/// LF. Refused for want of memory alone, and then a part of it may stand there.
pub fn print_line(out: &mut Vec<u8>, number: u64, answer: &LineAnswer) -> Result<(), NoMemory>
    ensures { OnOk result (out.new.items ≡ out.old.items ++ spec.print_line number answer.now) }
{
    print_number(out, number)?;
    out.extend_from_slice(b": ")?;
    print_said(out, answer)?;
    out.extend_from_slice(b"\n")?;
    match answer {
        LineAnswer::Rows(rows) => print_rows(out, rows.as_slice()),
        LineAnswer::Parts(parts) => print_parts(out, parts.as_slice()),
        _ => Ok(()),
    }
}

fn print_said(out: &mut Vec<u8>, answer: &LineAnswer) -> Result<(), NoMemory>
    ensures { OnOk result (out.new.items ≡ out.old.items ++ spec.said answer.now) }
{
    match answer {
        LineAnswer::Fine => print_text(out, b"OK"),
        LineAnswer::Skipped => print_text(out, b"SKIPPED"),
        LineAnswer::Pending => print_text(out, b"PENDING"),
        LineAnswer::Rows(rows) => print_counted(out, b"ROWS ", rows.len() as u64),
        LineAnswer::Conflict(id, place) => print_conflict(out, *id, *place),
        LineAnswer::Cancelled(place) => print_counted(out, b"CANCELLED AT ", *place as u64),
        LineAnswer::Unknown(place) => print_counted(out, b"UNKNOWN AT ", *place as u64),
        LineAnswer::Moves(all, done) => {
            print_counted(out, b"MOVES ", *all as u64)?;
            print_counted(out, b" DONE ", *done as u64)
        }
        LineAnswer::Task(part, stage) => {
            print_counted(out, b"TASK ", *part as u64)?;
            print_text(out, b" ")?;
            print_text(out, stage_text(*stage))
        }
        LineAnswer::NoTask => print_text(out, b"TASK none"),
        LineAnswer::Parts(parts) => print_counted(out, b"PARTS ", parts.len() as u64),
        LineAnswer::Refused(why) => {
            print_text(out, b"ERROR ")?;
            print_refused(out, why)
        }
    }
}

fn print_conflict(out: &mut Vec<u8>, id: CallId, place: u32) -> Result<(), NoMemory>
    ensures { OnOk result (out.new.items ≡ out.old.items ++ codes "CONFLICT " ++ decimal id.client ++ codes "." ++ decimal id.number ++ codes " AT " ++ decimal place) }
{
    print_counted(out, b"CONFLICT ", id.client as u64)?;
    print_counted(out, b".", id.number)?;
    print_counted(out, b" AT ", place as u64)
}

fn stage_text(stage: Stage) -> &'static [u8]
    ensures { result.now ≡ spec.stage_text stage }
{
    match stage {
        Stage::ChangeLeader => b"ChangeLeader",
        Stage::AddPart => b"AddPart",
        Stage::AddLearner => b"AddLearner",
        Stage::CatchUp => b"CatchUp",
        Stage::MemberAdd => b"MemberAdd",
        Stage::MemberRemove => b"MemberRemove",
        Stage::UpdateMeta => b"UpdateMeta",
        Stage::RemovePart => b"RemovePart",
        Stage::End => b"End",
    }
}

fn print_refused(out: &mut Vec<u8>, why: &LineRefused) -> Result<(), NoMemory>
    ensures { OnOk result (out.new.items ≡ out.old.items ++ spec.why_text why.now) }
{
    match why {
        LineRefused::TooLong => print_text(out, b"line 65536"),
        LineRefused::Syntax(at) => print_counted(out, b"syntax AT ", *at as u64),
        LineRefused::NumberTooWide(at) => print_counted(out, b"number AT ", *at as u64),
        LineRefused::TooMany(at) => print_counted(out, b"many AT ", *at as u64),
        LineRefused::BadOption(at) => print_counted(out, b"option AT ", *at as u64),
        LineRefused::NoSpace => print_text(out, b"space"),
        LineRefused::OneSpace => print_text(out, b"spaces 1"),
        LineRefused::NoSuchName(name) => print_named(out, b"name ", name.as_slice()),
        LineRefused::NameTaken(name) => print_named(out, b"taken ", name.as_slice()),
        LineRefused::WrongCount(at) => print_counted(out, b"count AT ", *at as u64),
        LineRefused::WrongType(name) => print_named(out, b"type ", name.as_slice()),
        LineRefused::NotSet(name) => print_named(out, b"unset ", name.as_slice()),
        LineRefused::LongId(at) => print_counted(out, b"vid AT ", *at as u64),
        LineRefused::TooWide => print_text(out, b"wide 4096"),
        LineRefused::NoRoom => print_text(out, b"room"),
        LineRefused::TaskOpen(part) => print_counted(out, b"task ", *part as u64),
        LineRefused::BadPlace => print_text(out, b"place"),
        LineRefused::NoSuchNode(node) => print_counted(out, b"node ", *node as u64),
        LineRefused::NoSuchPart(part) => print_counted(out, b"part ", *part as u64),
        LineRefused::NoSuchPacket => print_text(out, b"packet"),
        LineRefused::NodesFull => print_text(out, b"nodes 8"),
        LineRefused::DiskFault => print_text(out, b"disk"),
        LineRefused::BadFile(at) => print_counted(out, b"file ", *at),
    }
}

fn print_parts(out: &mut Vec<u8>, parts: &[(u32, Listed<u32>)]) -> Result<(), NoMemory>
    ensures { OnOk result (out.new.items ≡ out.old.items ++ flat_map spec.part_line parts.now) }
{
    for (part, nodes) in parts {
        print_counted(out, b"  ", *part as u64)?;
        print_text(out, b":")?;
        print_nodes(out, nodes.as_slice())?;
        print_text(out, b"\n")?;
    }
    Ok(())
}

fn print_nodes(out: &mut Vec<u8>, nodes: &[u32]) -> Result<(), NoMemory>
    ensures { OnOk result (out.new.items ≡ out.old.items ++ flat_map spec.node_text nodes.now) }
{
    for node in nodes {
        print_counted(out, b" ", *node as u64)?;
    }
    Ok(())
}

fn print_rows(out: &mut Vec<u8>, rows: &[Row]) -> Result<(), NoMemory>
    ensures { OnOk result (out.new.items ≡ out.old.items ++ flat_map spec.row_line rows.now) }
{
    for row in rows {
        print_text(out, b"  ")?;
        print_values(out, row.as_slice())?;
        print_text(out, b"\n")?;
    }
    Ok(())
}

fn print_values(out: &mut Vec<u8>, row: &[Val]) -> Result<(), NoMemory>
    ensures { OnOk result (out.new.items ≡ out.old.items ++ spec.values_text row.now) }
{
    let [first, others @ ..] = row else {
        return Ok(());
    };
    print_value(out, first)?;
    print_others(out, others)
}

fn print_others(out: &mut Vec<u8>, others: &[Val]) -> Result<(), NoMemory>
    ensures { OnOk result (out.new.items ≡ out.old.items ++ flat_map spec.next_text others.now) }
{
    for value in others {
        print_text(out, b", ")?;
        print_value(out, value)?;
    }
    Ok(())
}

fn print_value(out: &mut Vec<u8>, value: &Val) -> Result<(), NoMemory>
    ensures { OnOk result (out.new.items ≡ out.old.items ++ spec.value_text value.now) }
{
    match value {
        Val::Null => print_text(out, b"NULL"),
        Val::Int(number) => print_text(out, Buffer::new().format(*number).as_bytes()),
        Val::Flag(true) => print_text(out, b"true"),
        Val::Flag(false) => print_text(out, b"false"),
        Val::Words(text) => print_words(out, text.as_slice()),
    }
}

fn print_words(out: &mut Vec<u8>, text: &[u8]) -> Result<(), NoMemory>
    ensures { OnOk result (out.new.items ≡ out.old.items ++ codes "\"" ++ flat_map spec.escaped text.now ++ codes "\"") }
{
    out.push(b'"')?;
    for b in text {
        match *b {
            b'"' => out.extend_from_slice(b"\\\"")?,
            b'\\' => out.extend_from_slice(b"\\\\")?,
            b'\n' => out.extend_from_slice(b"\\n")?,
            b'\t' => out.extend_from_slice(b"\\t")?,
            plain => out.push(plain)?,
        }
    }
    out.push(b'"')?;
    Ok(())
}

fn print_named(out: &mut Vec<u8>, text: &[u8], name: &[u8]) -> Result<(), NoMemory>
    ensures { OnOk result (out.new.items ≡ out.old.items ++ text.now ++ name.now) }
{
    print_text(out, text)?;
    print_text(out, name)
}

fn print_counted(out: &mut Vec<u8>, text: &[u8], number: u64) -> Result<(), NoMemory>
    ensures { OnOk result (out.new.items ≡ out.old.items ++ text.now ++ decimal number) }
{
    print_text(out, text)?;
    print_number(out, number)
}

fn print_number(out: &mut Vec<u8>, number: u64) -> Result<(), NoMemory>
    ensures { OnOk result (out.new.items ≡ out.old.items ++ decimal number) }
{
    let mut buffer = Buffer::new();
    print_text(out, buffer.format(number).as_bytes())
}

fn print_text(out: &mut Vec<u8>, text: &[u8]) -> Result<(), NoMemory>
    ensures { OnOk result (out.new.items ≡ out.old.items ++ text.now) }
{
    out.extend_from_slice(text)?;
    Ok(())
}
