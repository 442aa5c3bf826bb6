//! Counts of ones.

ghost use Rattle.std.specs.Prelude.{◌≡◌, ◌≤◌, length};
ghost use Rattle.lg_arith.specs.Count.{count_of, least_width, greatest_count};

use crate::operand::{are_defined, low_word};
use lg_value::{Bit, Word};

/// The least width that a number fits: 0 for 0.
pub fn least_width(n: u32) -> u32
    ensures { result ≡ least_width n }
{
    u32::BITS - n.leading_zeros()
}

/// How many bits of 1 to 64 inputs are One, in the least width that every count of so many bits fits.
///
/// A bit that is not Zero or One makes every bit of the output an error.
pub fn count_ones(inputs: &[Word]) -> Word
    requires some { 1 ≤ length inputs.now }
    requires most { length inputs.now ≤ 64 }
    ensures count { result ≡ count_of inputs.now }
    ensures width { length result ≡ least_width (greatest_count inputs.now) }
{
    let mut greatest = 0;
    let mut ones = 0;
    for input in inputs {
        greatest += input.width();
        ones += input.ones();
    }
    let width = least_width(greatest);
    if are_defined(inputs) {
        low_word(width, u128::from(ones))
    } else {
        Word::fill(width, Bit::Error)
    }
}
