//! Contents that are read by name.

ghost use Rattle.std.specs.Prelude.{◌≡◌, ◌≤◌, length, IfSome, IfOk, IsErrOf};
ghost use Rattle.lg_io.specs.Fault.{HasRisen};
ghost use Rattle.lg_io.specs.Files.{Seen, IsReadAnswer};

use crate::FileFault;
use std::alloc::Global;

/// Contents that are read by name.
pub trait Files {
    /// What is held by name, where the object tells it, and how often a read has failed.
    ghost seen: { Self → Seen };

    /// Reads the whole content under a name, of at most `most` bytes.
    ///
    /// `Missing`: nothing is held under the name. `TooLong`: the content has more than `most`
    /// bytes. `Failed`: the read failed, which is counted. `Memory`: there was no
    /// memory for the content. What is held stays the same, whatever the answer.
    fn read(&mut self, alloc: Global, name: &str, most: usize) -> Result<Vec<u8>, FileFault>
        ensures answer { IfSome (seen self.old).held (λ held. IsReadAnswer (held name.now) most result) }
        ensures within { IfOk result (λ bytes. length bytes.items ≤ most) }
        ensures same { (seen self.new).held ≡ (seen self.old).held }
        ensures failed { IsErrOf result FileFault.Failed →
            HasRisen (seen self.old).faults (seen self.new).faults }
        ensures never_falls { (seen self.old).faults ≤ (seen self.new).faults };
}
