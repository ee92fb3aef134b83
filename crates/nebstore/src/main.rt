//! The program: `nebstore run` reads a script from standard input and writes the answer of each line to standard
//! output.
//!
//! It makes the real source and sink, hands them to `run_script` of `nebstore_app`, whose contract says what the
//! statuses mean and what is written, and ends with its status. For a status other than 0 it says so on standard
//! error. Nothing else is done here.
#![tactic(auto)]

use lists::{Listed, NoMemory, Text};
use nebstore_app::{Outcome, run_script};
use outside_io::{StdSink, StdSource};
use std::alloc::Global;
use std::env;
use std::env::Args;
use std::io::ErrorKind;
use std::process::ExitCode;

fn main(rt: HostRuntime) -> ExitCode {
    let alloc = rt.alloc();
    let status = match env::args(&rt) {
        Ok(args) => match words_of(alloc, args) {
            Ok(words) => {
                let mut source = StdSource::new(rt.stdin());
                let mut sink = StdSink::new(rt.stdout());
                run_script(alloc, words.as_slice(), &mut source, &mut sink).status
            }
            Err(NoMemory) => Outcome::NoMemory.status(),
        },
        Err(error) => match error.kind() {
            ErrorKind::OutOfMemory => Outcome::NoMemory.status(),
            // A word that is no text isn't one that is wanted.
            _ => Outcome::WrongWords.status(),
        },
    };
    if status != 0 {
        let _ = eprintln!(rt; "nebstore: status {status}");
    }
    ExitCode::from(status)
}

/// The words behind the program's name.
fn words_of(alloc: Global, args: Args<Global>) -> Result<Vec<Text>, NoMemory> {
    let mut words = Vec::new(alloc);
    for arg in args.skip(1) {
        words.push(Listed::from_slice(alloc, arg.as_bytes())?)?;
    }
    Ok(words)
}
