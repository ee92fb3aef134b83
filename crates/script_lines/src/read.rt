//! How a line is read.
ghost use Rattle.std.specs.Prelude.{◌≡◌, ◌≤◌, length, take_while, IfOk};
ghost use Rattle.script_lines.specs.Lines as spec;

use crate::reading::Reading;
use fault_schedule::read_control;
use lists::NoMemory;
use ngql_lex::without_cr;
use ngql_parser::{ParseRefused, parse};
use std::alloc::Global;

/// How many bytes a line may have, without its LF.
const LONGEST: usize = 65_536;

/// What the line says. `version` is that of the files that are to be written, 1 or 2; version 1 has no texts as ids. Refused for
/// want of memory alone.
pub fn read_line(alloc: Global, line: &[u8], version: u8) -> Result<Reading, NoMemory>
    ensures ok { IfOk result (spec.IsReading version line.now) }
{
    if line.len() > LONGEST {
        return Ok(Reading::TooLong);
    }
    if says_nothing(line) {
        return Ok(Reading::Nothing);
    }
    if begins_control(line) {
        return Ok(match read_control(line) {
            Some(control) => Reading::Control(control),
            None => Reading::NoControl,
        });
    }
    match parse(alloc, line, version) {
        Ok(statement) => Ok(Reading::Statement(statement)),
        Err(ParseRefused::NoMemory) => Err(NoMemory),
        Err(why) => Ok(Reading::Refused(why)),
    }
}

/// Whether the line is blank, or a comment: blanks alone, or `#` or `//` behind them.
fn says_nothing(line: &[u8]) -> bool
    ensures { result ≡ spec.says_nothing line.now }
{
    let text = without_cr(line);
    let text = &text[blanks(text)..];
    if text.is_empty() || text[0] == b'#' {
        return true;
    }
    text.len() > 1 && text[0] == b'/' && text[1] == b'/'
}

/// How many blanks stand in front.
fn blanks(text: &[u8]) -> usize
    ensures is { result ≡ length (take_while spec.is_blank text.now) }
    ensures within { result ≤ length text.now }
{
    text.iter()
        .take_while(|byte| **byte == b' ' || **byte == b'\t')
        .count()
}

fn begins_control(line: &[u8]) -> bool
    ensures { result ≡ spec.begins_control line.now }
{
    !line.is_empty() && line[0] == b':'
}
