//! A sink over a writer of std.
ghost use Rattle.std.specs.Prelude.{◌≡◌, ◌≤◌, length, IfOk};

use crate::failed::Failed;
use crate::faults::Faults;
use crate::sink::Sink;
use std::io;
use std::io::Write;

/// Writes to a writer, as to standard output, and flushes it at each write. It doesn't tell what was written: that
/// the writer takes the bytes in order is trusted. Each error of the writer is a fault, an interrupted write too.
#[derive(Drop)]
pub struct StdSink<W> {
    writer: W,
    faults: Faults,
}

impl<W: Write> StdSink<W> {
    /// A sink over this writer.
    pub fn new(writer: W) -> StdSink<W>
        ensures { ⟦<StdSink<W> as Sink>⟧.faults result ≡ 0 }
    {
        StdSink {
            writer,
            faults: Faults::new(),
        }
    }
}

// Writes a front of the bytes and hands it on.
fn write_through<W: Write>(writer: &mut W, from: &[u8]) -> io::Result<usize>
    ensures { IfOk result (λ n. n ≤ length from.now) }
{
    let written = writer.write(from)?;
    writer.flush()?;
    Ok(written)
}

impl<W: Write> Sink for StdSink<W> {
    ghost use Rattle.std.specs.Prelude.{None};

    ghost faults = { λ s. s.faults.count };

    ghost written = { λ _. None };

    fn write(&mut self, from: &[u8]) -> Result<usize, Failed> {
        match write_through(&mut self.writer, from) {
            Ok(written) if written > 0 => Ok(written),
            _ => {
                self.faults.rise();
                Err(Failed)
            }
        }
    }
}
