//! A whole slice to a sink.
ghost use Rattle.std.specs.Prelude.{◌≡◌, ◌<◌, [], OnOk, OnErr};
ghost use Rattle.outside_io.specs.Bytes.{Appends, AppendsFront};

use crate::failed::Failed;
use crate::sink::Sink;

/// Writes all of `from`, by as many writes as the sink needs, and by none where there is nothing to write.
/// Refused where the sink counted a fault, and then a front of `from` was written.
#[tactic(auto, using(crate::proofs::Told::appends_on))]
pub fn write_all<K: Sink>(sink: &mut K, from: &[u8]) -> Result<(), Failed>
    ensures written { OnOk result (Appends (K.written sink.old) from.now (K.written sink.new)) }
    ensures front { OnErr result (AppendsFront (K.written sink.old) from.now (K.written sink.new)) }
    ensures steady { OnOk result (K.faults sink.new ≡ K.faults sink.old) }
    ensures counted { OnErr result (K.faults sink.old < K.faults sink.new) }
    ensures untouched { from.now ≡ [] → sink.new ≡ sink.old }
{
    let mut done = 0;
    while done < from.len() {
        done += sink.write(&from[done..])?;
    }
    Ok(())
}
