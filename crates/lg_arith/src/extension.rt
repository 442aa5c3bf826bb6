//! The bits that an extended word gets.

use lg_value::Bit;

/// What stands in the places that a word does not have.
#[derive(Clone, Copy, Debug, PartialEq, Eq)]
pub enum Extend {
    /// Zeros.
    Zero,
    /// Ones.
    One,
    /// Copies of the word's top bit.
    Sign,
    /// Copies of this bit, as it is.
    Input(Bit),
}
