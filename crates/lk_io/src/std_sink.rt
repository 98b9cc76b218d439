//! The sinks of standard output and standard error.
ghost use Rattle.std.specs.Prelude.{◌≡◌, ◌<◌, ◌≤◌, None, length, take, IfOk};
ghost use Rattle.std.specs.Io.KnownBytes.{Appends};
ghost use Rattle.lk_io.specs.Counts.{Counts};

use crate::fault::{Failed, raised};
use crate::sink::Sink;
use std::io;
use std::io::Write;
use std::marker::Model;

/// A stream of the system, as standard output or standard error. It flushes within each write.
///
/// A contract sees its count of faults, and the bytes that the stream holds, where the stream tells them. It
/// does not tell what went, since a stream whose flush fails may hold the bytes of that write.
#[derive(Drop)]
pub struct StdSink<W: Write> {
    stream: W,
    faults: u64,
}

impl<W: Write> Model for StdSink<W> {
    ghost use Rattle.lk_io.specs.Sink.{StreamState};

    ghost Value = { StreamState };

    ghost view = { λ sink. record { holds = W.contents sink.stream; faults = sink.faults } };
}

impl<W: Write> StdSink<W> {
    /// A sink over this stream, which has no fault yet.
    pub fn new(stream: W) -> StdSink<W>
        ensures { result ≡ record { holds = W.contents stream; faults = 0 } }
    {
        StdSink { stream, faults: 0 }
    }
}

impl<W: Write> Sink for StdSink<W> {
    ghost gone = { λ _. None };

    ghost faults = { λ sink. sink.faults };

    fn write(&mut self, bytes: &[u8]) -> Result<usize, Failed>
        ensures within { IfOk result (λ n. n ≤ length bytes.now) }
        ensures some { IfOk result (λ n. 0 < length bytes.now → 0 < n) }
        // The stream took just the bytes that are counted.
        ensures held { IfOk result (λ n. Appends self.old.holds self.new.holds (take n bytes.now)) }
        ensures counts { Counts self.old.faults self.new.faults result }
    {
        match write_through(&mut self.stream, bytes) {
            Ok(count) if count > 0 || bytes.is_empty() => Ok(count),
            _ => {
                self.faults = raised(self.faults);
                Err(Failed)
            }
        }
    }
}

/// Writes bytes from the first on, and flushes the stream.
#[tactic(auto, using(crate::proofs::Writing::appends_kept))]
fn write_through<W: Write>(stream: &mut W, bytes: &[u8]) -> io::Result<usize>
    ensures within { IfOk result (λ n. n ≤ length bytes.now) }
    ensures held { IfOk result
        (λ n. Appends (W.contents stream.old) (W.contents stream.new) (take n bytes.now)) }
{
    let count = stream.write(bytes)?;
    stream.flush()?;
    Ok(count)
}
