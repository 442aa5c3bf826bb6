//! Why there is no module, or no text of rows.

ghost use Rattle.std.specs.Prelude.{◌≡◌};
ghost use Rattle.lg_vrows.specs.Faults.{read_fault, mean_fault, vector_fault};
ghost use Rattle.lg_vrows.specs.declared.fault.RowsFault.TheVariants.{Memory as NoMemory};

use lg_text::Text;
use lg_vectors::VectorFault;
use lg_vmeaning::MeanFault;
use lg_vread::ReadFault;
use lg_vtree::Memory;
use std::alloc::{AllocError, AllocFailed};

/// Why a text gives no valid module.
#[derive(Debug, Drop)]
pub enum ModuleFault {
    /// It is a text of no module of the subset.
    NotSubset,
    /// Its module breaks a rule: the least such, from 1 to 7.
    NotValid { rule: u32 },
    /// A wire or an output of its module depends on itself: that of the first such assign.
    Cyclic { wire: Text },
    /// There was no memory.
    Memory,
}

/// Why a text gives no rows for a module.
#[derive(Debug, Drop)]
pub enum RowsFault {
    /// It is no vector, or its columns are not those of the inputs.
    Vector { fault: VectorFault },
    /// The first row, from 1, with a bit that is not cared for.
    Undefined { row: u32 },
    /// There was no memory.
    Memory,
}

impl From<ReadFault> for ModuleFault {
    ghost from_gives = { λ read fault. fault ≡ read_fault read };

    fn from(fault: ReadFault) -> ModuleFault {
        match fault {
            ReadFault::NotSubset => ModuleFault::NotSubset,
            ReadFault::Memory => ModuleFault::Memory,
        }
    }
}

impl From<MeanFault> for ModuleFault {
    ghost from_gives = { λ mean fault. fault ≡ mean_fault mean };

    fn from(fault: MeanFault) -> ModuleFault {
        match fault {
            MeanFault::NotValid { rule } => ModuleFault::NotValid { rule },
            MeanFault::Cyclic { wire } => ModuleFault::Cyclic { wire },
            MeanFault::Memory => ModuleFault::Memory,
        }
    }
}

impl From<VectorFault> for RowsFault {
    ghost from_gives = { λ vector fault. fault ≡ vector_fault vector };

    fn from(fault: VectorFault) -> RowsFault {
        match fault {
            VectorFault::Memory => RowsFault::Memory,
            fault => RowsFault::Vector { fault },
        }
    }
}

impl From<Memory> for RowsFault {
    ghost from_gives = { λ _ fault. fault ≡ NoMemory };

    fn from(_: Memory) -> RowsFault {
        RowsFault::Memory
    }
}

impl From<AllocError> for RowsFault {
    ghost from_gives = { λ _ fault. fault ≡ NoMemory };

    fn from(_: AllocError) -> RowsFault {
        RowsFault::Memory
    }
}

impl<T: Drop> From<AllocFailed<T>> for RowsFault {
    ghost from_gives = { λ _ fault. fault ≡ NoMemory };

    fn from(_: AllocFailed<T>) -> RowsFault {
        RowsFault::Memory
    }
}
