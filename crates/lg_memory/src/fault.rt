//! Why a state is not made, and why an image is not read.

ghost use Rattle.std.specs.Prelude.{◌≡◌};
ghost use Rattle.lg_memory.specs.declared.fault.ImageFault.TheVariants.{Memory as NoMemory};

use std::alloc::AllocError;

/// There was no memory.
#[derive(Clone, Copy, Debug, PartialEq, Eq)]
pub struct Memory;

impl From<AllocError> for Memory {
    fn from(_e: AllocError) -> Memory {
        Memory
    }
}

/// Why `read_image` gives no words.
#[derive(Clone, Copy, Debug, PartialEq, Eq)]
pub enum ImageFault {
    /// The bytes are no memory image.
    NotImage,
    /// They are one, with too many words.
    ImageTooLong,
    /// There was no memory.
    Memory,
}

impl From<AllocError> for ImageFault {
    ghost from_gives = { λ _ e. e ≡ NoMemory };

    fn from(_e: AllocError) -> ImageFault {
        ImageFault::Memory
    }
}
