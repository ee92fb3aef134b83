//! How the answer of a line is printed.
ghost use Rattle.std.specs.Prelude.{◌≡◌, ◌++◌, flat_map, codes, decimal, OnOk};
ghost use Rattle.first_script.specs.Print as spec;

use crate::line_answer::LineAnswer;
use first_graph::{Row, Val};
use itoa::Buffer;
use lists::NoMemory;

/// Adds the answer of the line with this number (from 1) to what is printed, its rows behind it, each line with its
/// LF. Refused for want of memory alone, and then a part of it may stand there.
pub fn print_line(out: &mut Vec<u8>, number: u64, answer: &LineAnswer) -> Result<(), NoMemory>
    ensures { OnOk result (out.new.items ≡ out.old.items ++ spec.print_line number answer.now) }
{
    print_number(out, number)?;
    out.extend_from_slice(b": ")?;
    print_said(out, answer)?;
    out.extend_from_slice(b"\n")?;
    if let LineAnswer::Rows(rows) = answer {
        print_rows(out, rows.as_slice())?;
    }
    Ok(())
}

fn print_said(out: &mut Vec<u8>, answer: &LineAnswer) -> Result<(), NoMemory>
    ensures { OnOk result (out.new.items ≡ out.old.items ++ spec.said answer.now) }
{
    match answer {
        LineAnswer::Fine => out.extend_from_slice(b"OK")?,
        LineAnswer::Skipped => out.extend_from_slice(b"SKIPPED")?,
        LineAnswer::Pending => out.extend_from_slice(b"PENDING")?,
        LineAnswer::Rows(rows) => {
            out.extend_from_slice(b"ROWS ")?;
            print_number(out, rows.len() as u64)?;
        }
        LineAnswer::Conflict(id, place) => {
            out.extend_from_slice(b"CONFLICT ")?;
            print_number(out, id.client as u64)?;
            out.extend_from_slice(b".")?;
            print_number(out, id.number)?;
            out.extend_from_slice(b" AT ")?;
            print_number(out, *place as u64)?;
        }
        LineAnswer::Cancelled(place) => {
            out.extend_from_slice(b"CANCELLED AT ")?;
            print_number(out, *place as u64)?;
        }
        LineAnswer::Unknown(place) => {
            out.extend_from_slice(b"UNKNOWN AT ")?;
            print_number(out, *place as u64)?;
        }
        LineAnswer::Syntax => out.extend_from_slice(b"ERROR syntax AT 1")?,
    }
    Ok(())
}

fn print_rows(out: &mut Vec<u8>, rows: &[Row]) -> Result<(), NoMemory>
    ensures { OnOk result (out.new.items ≡ out.old.items ++ flat_map spec.row_line rows.now) }
{
    for row in rows {
        out.extend_from_slice(b"  ")?;
        print_values(out, row.as_slice())?;
        out.extend_from_slice(b"\n")?;
    }
    Ok(())
}

fn print_values(out: &mut Vec<u8>, row: &[Val]) -> Result<(), NoMemory>
    ensures { OnOk result (out.new.items ≡ out.old.items ++ spec.values_text row.now) }
{
    let [first, others @ ..] = row else {
        return Ok(());
    };
    print_value(out, first)?;
    print_others(out, others)
}

fn print_others(out: &mut Vec<u8>, others: &[Val]) -> Result<(), NoMemory>
    ensures { OnOk result (out.new.items ≡ out.old.items ++ flat_map spec.next_text others.now) }
{
    for value in others {
        out.extend_from_slice(b", ")?;
        print_value(out, value)?;
    }
    Ok(())
}

fn print_value(out: &mut Vec<u8>, value: &Val) -> Result<(), NoMemory>
    ensures { OnOk result (out.new.items ≡ out.old.items ++ spec.value_text value.now) }
{
    match value {
        Val::Null => out.extend_from_slice(b"NULL")?,
        Val::Int(number) => out.extend_from_slice(Buffer::new().format(*number).as_bytes())?,
        Val::Flag(true) => out.extend_from_slice(b"true")?,
        Val::Flag(false) => out.extend_from_slice(b"false")?,
        Val::Words(text) => print_words(out, text.as_slice())?,
    }
    Ok(())
}

fn print_words(out: &mut Vec<u8>, text: &[u8]) -> Result<(), NoMemory>
    ensures { OnOk result (out.new.items ≡ out.old.items ++ codes "\"" ++ flat_map spec.escaped text.now ++ codes "\"") }
{
    out.push(b'"')?;
    for b in text {
        match *b {
            b'"' => out.extend_from_slice(b"\\\"")?,
            b'\\' => out.extend_from_slice(b"\\\\")?,
            b'\n' => out.extend_from_slice(b"\\n")?,
            b'\t' => out.extend_from_slice(b"\\t")?,
            plain => out.push(plain)?,
        }
    }
    out.push(b'"')?;
    Ok(())
}

fn print_number(out: &mut Vec<u8>, number: u64) -> Result<(), NoMemory>
    ensures { OnOk result (out.new.items ≡ out.old.items ++ decimal number) }
{
    let mut buffer = Buffer::new();
    out.extend_from_slice(buffer.format(number).as_bytes())?;
    Ok(())
}
