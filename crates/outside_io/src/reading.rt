//! A source to its end, or to a limit.
ghost use Rattle.std.specs.Prelude.{◌≡◌, ◌<◌, ◌≤◌, ◌+◌, ◌^◌, [], vec_len};
ghost use Rattle.outside_io.specs.Bytes.{TakesFront};
ghost use Rattle.outside_io.specs.Stop.{StopsWell, CountsAt};

use crate::source::Source;

/// Why [`read_up_to`] stopped.
#[derive(Clone, Copy, Debug)]
pub enum Stop {
    /// The source is at its end.
    Ended,
    /// There are more bytes than the limit.
    Full,
    /// The source failed.
    Failed,
    /// There was no memory for more bytes.
    NoMemory,
}

// The most bytes of one read.
const PIECE: usize = 8192;

/// Reads on and on into the empty `into`, until the source is at its end, `limit + 1` bytes were read, a read
/// fails or memory runs out. All that was read is in `into`.
pub fn read_up_to<S: Source>(source: &mut S, into: &mut Vec<u8>, limit: usize) -> Stop
    requires empty { into.old.items ≡ [] }
    requires small { limit < 2 ^ 32 }
    ensures given { TakesFront (S.left source.old) into.new.items (S.left source.new) }
    ensures why { StopsWell result (S.left source.new) (vec_len into.new) limit }
    ensures faults { CountsAt result (S.faults source.old) (S.faults source.new) }
{
    let mut piece = [0; PIECE];
    while into.len() <= limit {
        let asked = (limit - into.len() + 1).min(PIECE);
        let Ok(()) = into.reserve(asked) else {
            return Stop::NoMemory;
        };
        let Ok(read) = source.read(&mut piece[..asked]) else {
            return Stop::Failed;
        };
        if read == 0 {
            return Stop::Ended;
        }
        match into.extend_from_slice(&piece[..read]) {
            Ok(()) => {}
            Err(_) => unreachable!(),
        }
    }
    Stop::Full
}
