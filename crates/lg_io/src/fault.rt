//! Why a read or a write was refused.

ghost use Rattle.std.specs.Prelude.{◌≡◌};
ghost use Rattle.lg_io.specs.declared.fault.FileFault.TheVariants.{Memory as out_of_memory};

use std::alloc::{AllocError, AllocFailed};

/// Why no content was read.
#[derive(Clone, Copy, Debug, PartialEq, Eq)]
pub enum FileFault {
    /// Nothing is held under the name.
    Missing,
    /// The content has more bytes than were asked for at most.
    TooLong,
    /// The read failed, and was counted.
    Failed,
    /// There was no memory for the content.
    Memory,
}

/// Why a sink took nothing.
#[derive(Clone, Copy, Debug, PartialEq, Eq)]
pub enum SinkFault {
    /// The write failed, and was counted.
    Failed,
}

/// The answer of a call that only memory can refuse.
#[derive(Clone, Copy, Debug, PartialEq, Eq)]
pub struct Memory;

impl From<AllocError> for FileFault {
    ghost from_gives = { λ _ fault. fault ≡ out_of_memory };

    fn from(_: AllocError) -> FileFault {
        FileFault::Memory
    }
}

impl<T: Drop> From<AllocFailed<T>> for FileFault {
    ghost from_gives = { λ _ fault. fault ≡ out_of_memory };

    fn from(_: AllocFailed<T>) -> FileFault {
        FileFault::Memory
    }
}

impl From<AllocError> for Memory {
    ghost from_gives = { λ _ memory. memory ≡ record {} };

    fn from(_: AllocError) -> Memory {
        Memory
    }
}
