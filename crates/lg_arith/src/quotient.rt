//! Quotients and remainders.

ghost use Rattle.std.specs.Prelude.{◌≡◌, length};
ghost use Rattle.lg_arith.specs.Quotient.{quotient_of, remainder_of};

use crate::operand::{are_defined, counted_word, low_word};
use lg_value::{Bit, Word};

/// The quotient and the remainder of a dividend of two words, `a` below and `upper` above, by `b`,
/// or by 1 where `b` is 0. All have one width. Of a quotient past the width the low bits are given.
///
/// An Unknown bit of `upper` counts as 0. Any other bit that is not Zero or One makes every bit of
/// both outputs an error.
pub fn div(a: &Word, b: &Word, upper: &Word) -> (Word, Word)
    requires b_width { length b.now ≡ length a.now }
    requires upper_width { length upper.now ≡ length a.now }
    ensures quotient { result.0 ≡ quotient_of a.now b.now upper.now }
    ensures remainder { result.1 ≡ remainder_of a.now b.now upper.now }
    ensures quotient_width { length result.0 ≡ length a.now }
    ensures remainder_width { length result.1 ≡ length a.now }
{
    let width = a.width();
    let upper = counted_word(upper);
    if !are_defined(&[*a, *b, upper]) {
        let error = Word::fill(width, Bit::Error);
        return (error, error);
    }
    let dividend = (u128::from(upper.number()) << width) + u128::from(a.number());
    let divisor = u128::from(b.number().max(1));
    (
        low_word(width, dividend / divisor),
        low_word(width, dividend % divisor),
    )
}
