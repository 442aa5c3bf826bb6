//! Sums and differences.

ghost use Rattle.std.specs.Prelude.{◌≡◌, length};
ghost use Rattle.lg_arith.specs.Sum.{sum_of, carry_of, difference_of, borrow_of, negation_of};

use crate::operand::{are_defined, bit_of_test, counted_bit, low_word};
use lg_value::{Bit, Word};

/// The sum of two words of one width and a carry, and the carry out.
///
/// An Unknown carry counts as 0. Any other bit that is not Zero or One makes both outputs errors.
pub fn add(a: &Word, b: &Word, carry: Bit) -> (Word, Bit)
    requires { length a.now ≡ length b.now }
    ensures sum { result.0 ≡ sum_of a.now b.now carry }
    ensures carry { result.1 ≡ carry_of a.now b.now carry }
    ensures width { length result.0 ≡ length a.now }
{
    let width = a.width();
    let carry = Word::fill(1, counted_bit(carry));
    if !are_defined(&[*a, *b, carry]) {
        return (Word::fill(width, Bit::Error), Bit::Error);
    }
    let sum = u128::from(a.number()) + u128::from(b.number()) + u128::from(carry.number());
    (low_word(width, sum), bit_of_test(1 << width <= sum))
}

/// The difference of two words of one width less a borrow, and the borrow out.
///
/// An Unknown borrow counts as 0. Any other bit that is not Zero or One makes both outputs errors.
pub fn sub(a: &Word, b: &Word, borrow: Bit) -> (Word, Bit)
    requires { length a.now ≡ length b.now }
    ensures difference { result.0 ≡ difference_of a.now b.now borrow }
    ensures borrow { result.1 ≡ borrow_of a.now b.now borrow }
    ensures width { length result.0 ≡ length a.now }
{
    let width = a.width();
    let borrow = Word::fill(1, counted_bit(borrow));
    if !are_defined(&[*a, *b, borrow]) {
        return (Word::fill(width, Bit::Error), Bit::Error);
    }
    let taken = u128::from(b.number()) + u128::from(borrow.number());
    let number = u128::from(a.number());
    (
        low_word(width, (1 << width) + number - taken),
        bit_of_test(number < taken),
    )
}

/// The negation of a word: zero less the word, modulo two to the width.
///
/// A bit that is not Zero or One makes every bit of the output an error.
pub fn negate(a: &Word) -> Word
    ensures negation { result ≡ negation_of a.now }
    ensures width { length result ≡ length a.now }
{
    let width = a.width();
    if !are_defined(&[*a]) {
        return Word::fill(width, Bit::Error);
    }
    low_word(width, (1 << width) - u128::from(a.number()))
}
