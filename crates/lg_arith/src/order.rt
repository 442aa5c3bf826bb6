//! The order of two words.

ghost use Rattle.std.specs.Prelude.{◌≡◌, length};
ghost use Rattle.lg_value.specs.Word.{IsDefined};
ghost use Rattle.lg_arith.specs.Order.{compared_number, greater_of, equal_of, less_of};

use crate::operand::{are_defined, bit_of_test, top_bit};
use lg_value::{Bit, Word};

// The number that a word is compared as, in two's complement where there are signs.
fn compared_number(word: &Word, signed: bool) -> i128
    requires { IsDefined word.now }
    ensures { result ≡ compared_number signed word.now }
{
    let number = i128::from(word.number());
    if signed && top_bit(word) == Bit::One {
        number - (1 << word.width())
    } else {
        number
    }
}

/// Whether the first of two words of one width is greater, whether they are equal, and whether it is
/// less. With `signed` they are compared as two's complement numbers.
///
/// A bit that is not Zero or One makes all three outputs errors.
pub fn compare(a: &Word, b: &Word, signed: bool) -> (Bit, Bit, Bit)
    requires { length a.now ≡ length b.now }
    ensures greater { result.0 ≡ greater_of a.now b.now signed }
    ensures equal { result.1 ≡ equal_of a.now b.now }
    ensures less { result.2 ≡ less_of a.now b.now signed }
{
    if !are_defined(&[*a, *b]) {
        return (Bit::Error, Bit::Error, Bit::Error);
    }
    let a_number = compared_number(a, signed);
    let b_number = compared_number(b, signed);
    (
        bit_of_test(b_number < a_number),
        bit_of_test(*a == *b),
        bit_of_test(a_number < b_number),
    )
}
