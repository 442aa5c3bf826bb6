//! Bits and words of four-valued logic, as wires of a Logisim-evolution circuit carry them.
#![tactic(auto)]

mod bit;
mod planes;
mod word;

pub use crate::bit::{Bit, join_bits};
pub use crate::word::Word;
