//! A stream of the system as a sink.

ghost use Rattle.std.specs.Prelude.{◌≡◌, ◌<◌, ◌≤◌, None, length, IfOk};
ghost use Rattle.lg_io.specs.Sink.{faults_after_write};

use crate::{Sink, SinkFault};
use std::io::Write;
use std::marker::Model;

/// A stream as a sink. In a contract it is the count of its faults, since none can say what a stream
/// took.
///
/// A write is a fault where the stream refused it, an interrupt among the reasons, or took none of
/// the bytes that there were. Each write is one call of the stream, and nothing is flushed: a stream
/// with no buffer of its own needs no flush. The count stays at the last value of 64 bits.
#[derive(Drop)]
pub struct StdSink<W> {
    stream: W,
    faults: u64,
}

impl<W> Model for StdSink<W> {
    ghost use Rattle.std.specs.Prelude.{ℕ};

    ghost Value = { ℕ };

    ghost view = { λ sink. sink.faults };
}

impl<W: Write> StdSink<W> {
    /// A sink that writes to this stream, with no fault yet.
    pub fn new(stream: W) -> StdSink<W>
        ensures { result ≡ 0 }
    {
        StdSink { stream, faults: 0 }
    }

    /// How many writes have failed.
    pub fn faults(&self) -> u64
        ensures { result ≡ self.now }
    {
        self.faults
    }
}

impl<W: Write> Sink for StdSink<W> {
    ghost seen = { λ faults. record { taken = None; faults = faults } };

    fn write(&mut self, bytes: &[u8]) -> Result<usize, SinkFault>
        ensures within { IfOk result (λ n. n ≤ length bytes.now) }
        ensures some { 0 < length bytes.now → IfOk result (λ n. 0 < n) }
        ensures counted { self.new ≡ faults_after_write self.old result }
        ensures never_falls { self.old ≤ self.new }
    {
        match self.stream.write(bytes) {
            Ok(n) if n > 0 || bytes.is_empty() => Ok(n),
            _ => {
                self.faults = self.faults.saturating_add(1);
                Err(SinkFault::Failed)
            }
        }
    }
}
