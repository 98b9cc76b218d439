//! How a whole text is written.
ghost use Rattle.std.specs.Prelude.{OnOk, OnErr};
ghost use Rattle.lk_io.specs.Counts.{Counts};
ghost use Rattle.lk_io.specs.Sink.{Takes, TakesPart};

use crate::fault::Failed;
use crate::sink::Sink;

/// Writes all the bytes, in as many pieces as the sink makes of them. It takes no memory.
///
/// Where a write fails, the bytes before it have gone.
pub fn write_whole<S: Sink>(sink: &mut S, bytes: &[u8]) -> Result<(), Failed>
    ensures ok { OnOk result (Takes (S.gone sink.old) (S.gone sink.new) bytes.now) }
    ensures err { OnErr result (TakesPart (S.gone sink.old) (S.gone sink.new) bytes.now) }
    ensures counts { Counts (S.faults sink.old) (S.faults sink.new) result }
{
    let mut rest = bytes;
    while !rest.is_empty() {
        let count = sink.write(rest)?;
        let (_, others) = rest.split_at(count);
        rest = others;
    }
    Ok(())
}
