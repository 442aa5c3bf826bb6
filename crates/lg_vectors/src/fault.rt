//! Why a text is no vector, and why a vector is not bound.

ghost use Rattle.std.specs.Prelude.{◌≡◌};
ghost use Rattle.lg_vectors.specs.declared.fault.VectorFault.TheVariants.{Memory};

use lg_text::Text;
use std::alloc::{AllocError, AllocFailed};

/// Why there is no vector, or no pin for each column.
#[derive(Debug, Drop)]
pub enum VectorFault {
    /// The first line that is outside the form of vectors, counted from 1 over all lines.
    NotVector { line: u32 },
    /// No pin has the name of this column.
    NoPin { name: Text },
    /// The pin of this column has another width.
    PinWidth { name: Text },
    /// An earlier column has the name of this one.
    PinClash { name: Text },
    /// There are more than `MOST_ROWS` rows.
    TooManyRows,
    /// No column has the name of this pin.
    MissingPin { name: Text },
    /// There was no memory, or there are more pins than 2^32.
    Memory,
}

impl From<AllocError> for VectorFault {
    ghost from_gives = { λ _ e. e ≡ Memory };

    fn from(_e: AllocError) -> VectorFault {
        VectorFault::Memory
    }
}

impl<T: Drop> From<AllocFailed<T>> for VectorFault {
    ghost from_gives = { λ _ e. e ≡ Memory };

    fn from(_e: AllocFailed<T>) -> VectorFault {
        VectorFault::Memory
    }
}
