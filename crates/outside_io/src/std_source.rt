//! A source over a reader of std.
ghost use Rattle.std.specs.Prelude.{◌≡◌};

use crate::failed::Failed;
use crate::faults::Faults;
use crate::source::Source;
use std::io::Read;

/// Gives the bytes of a reader, as of standard input. It doesn't tell them: that the reader gives its bytes in
/// order is trusted. Each error of the reader is a fault, an interrupted read too.
#[derive(Drop)]
pub struct StdSource<R> {
    reader: R,
    faults: Faults,
}

impl<R: Read> StdSource<R> {
    /// A source over this reader.
    pub fn new(reader: R) -> StdSource<R>
        ensures { ⟦<StdSource<R> as Source>⟧.faults result ≡ 0 }
    {
        StdSource {
            reader,
            faults: Faults::new(),
        }
    }
}

impl<R: Read> Source for StdSource<R> {
    ghost use Rattle.std.specs.Prelude.{None};

    ghost faults = { λ s. s.faults.count };

    ghost left = { λ _. None };

    fn read(&mut self, into: &mut [u8]) -> Result<usize, Failed> {
        match self.reader.read(into) {
            Ok(read) => Ok(read),
            Err(_) => {
                self.faults.rise();
                Err(Failed)
            }
        }
    }
}
