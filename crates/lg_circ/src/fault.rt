//! Why a project was not read.

ghost use Rattle.std.specs.Prelude.{◌≡◌};
ghost use Rattle.lg_circ.specs.declared.fault.CircFault.TheVariants.{Memory};

use std::alloc::{AllocError, AllocFailed};

/// Why `read_project` gives no project.
#[derive(Clone, Copy, Debug, PartialEq, Eq)]
pub enum CircFault {
    /// The text has more than `GREATEST_LENGTH` bytes.
    TooLong,
    /// The bytes spell elements, of which some stand in level 65.
    TooDeep,
    /// The bytes spell no elements, or elements in at most 64 levels that are no project.
    NotProject,
    /// There was no memory.
    Memory,
}

impl From<AllocError> for CircFault {
    ghost from_gives = { λ _ e. e ≡ Memory };

    fn from(_e: AllocError) -> CircFault {
        CircFault::Memory
    }
}

impl<T: Drop> From<AllocFailed<T>> for CircFault {
    ghost from_gives = { λ _ e. e ≡ Memory };

    fn from(_e: AllocFailed<T>) -> CircFault {
        CircFault::Memory
    }
}
