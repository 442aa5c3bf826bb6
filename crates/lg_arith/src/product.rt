//! Products.

ghost use Rattle.std.specs.Prelude.{◌≡◌, length};
ghost use Rattle.lg_arith.specs.Product.{low_product_of, high_product_of};

use crate::operand::{are_defined, counted_word, low_word};
use lg_value::{Bit, Word};

/// The product of two words plus a third one, as its low and its high half. All have one width.
///
/// An Unknown bit of the third operand counts as 0. Any other bit that is not Zero or One makes
/// every bit of both outputs an error.
pub fn mul(a: &Word, b: &Word, c: &Word) -> (Word, Word)
    requires b_width { length b.now ≡ length a.now }
    requires c_width { length c.now ≡ length a.now }
    ensures low { result.0 ≡ low_product_of a.now b.now c.now }
    ensures high { result.1 ≡ high_product_of a.now b.now c.now }
    ensures low_width { length result.0 ≡ length a.now }
    ensures high_width { length result.1 ≡ length a.now }
{
    let width = a.width();
    let c = counted_word(c);
    if !are_defined(&[*a, *b, c]) {
        let error = Word::fill(width, Bit::Error);
        return (error, error);
    }
    let product = u128::from(a.number()) * u128::from(b.number()) + u128::from(c.number());
    (low_word(width, product), low_word(width, product >> width))
}
