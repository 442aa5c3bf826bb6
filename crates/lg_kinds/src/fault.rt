//! Why a component is not read.

ghost use Rattle.std.specs.Prelude.{◌≡◌};
ghost use Rattle.lg_kinds.specs.declared.fault.PartFault.TheVariants.{Memory as NoMemory};

use lg_text::Text;
use std::alloc::AllocError;

/// Why a component has no ports, and why a port table is not read.
#[derive(Debug, Drop)]
pub enum PartFault {
    /// No kind has the name.
    UnknownKind { name: Text },
    /// The first attribute, in the order of the kind's table, whose value is out of its range.
    BadAttr { name: Text, value: Text },
    /// The first record of a port table that is out of form; 0 is its header.
    BadTable { row: u32 },
    /// The description of a library that is not accepted; empty where there is none.
    OutsideLibrary { lib: Text },
    /// There was no memory.
    Memory,
}

impl From<AllocError> for PartFault {
    ghost from_gives = { λ _ e. e ≡ NoMemory };

    fn from(_e: AllocError) -> PartFault {
        PartFault::Memory
    }
}
