//! Where bytes are written.

ghost use Rattle.std.specs.Prelude.{◌≡◌, ◌≤◌, ◌<◌, [], length, IfOk, IsErr, IsOk};
ghost use Rattle.lg_io.specs.Fault.{HasRisen};
ghost use Rattle.lg_io.specs.Sink.{Seen, accepted, Took, Wrote};

use crate::SinkFault;

/// Where bytes are written.
pub trait Sink {
    /// The bytes taken so far, where the object tells them, and how often a write has failed.
    ghost seen: { Self → Seen };

    /// Takes some bytes from the front and answers how many: at least one, where there is one.
    ///
    /// `Failed`: none were taken, and the failure is counted in `faults`.
    fn write(&mut self, bytes: &[u8]) -> Result<usize, SinkFault>
        ensures within { IfOk result (λ n. n ≤ length bytes.now) }
        ensures some { 0 < length bytes.now → IfOk result (λ n. 0 < n) }
        ensures takes { Took (seen self.old) (seen self.new) (accepted result bytes.now) }
        ensures failed { IsErr result → HasRisen (seen self.old).faults (seen self.new).faults }
        ensures never_falls { (seen self.old).faults ≤ (seen self.new).faults };
}

/// Writes all of the bytes, in as many calls as the sink needs. It takes no memory.
///
/// `Failed`: a call failed, which the sink has counted. The sink keeps what it took before, and no
/// call follows.
pub fn write_all<S: Sink>(sink: &mut S, bytes: &[u8]) -> Result<(), SinkFault>
    ensures wrote { Wrote result (S.seen sink.old) (S.seen sink.new) bytes.now }
    ensures never_falls { (S.seen sink.old).faults ≤ (S.seen sink.new).faults }
    ensures empty { bytes.now ≡ [] → sink.new ≡ sink.old }
    ensures empty_ok { bytes.now ≡ [] → IsOk result }
{
    let mut done = 0;
    while done < bytes.len() {
        done += sink.write(&bytes[done..])?;
    }
    Ok(())
}
