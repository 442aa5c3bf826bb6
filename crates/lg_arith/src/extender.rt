//! Words in another width.

ghost use Rattle.std.specs.Prelude.{◌≡◌, length};
ghost use Rattle.lg_value.specs.Word.{IsWidth};
ghost use Rattle.lg_arith.specs.Extend.{extended};

use crate::extension::Extend;
use crate::operand::top_bit;
use lg_value::{Bit, Word};

/// The word cut to its low `width` bits, or extended to that width, which is 1 to 64. Every bit goes
/// on as it is, an undefined one too.
pub fn extend(a: &Word, width: u32, how: Extend) -> Word
    requires { IsWidth width }
    ensures bits { result ≡ extended a.now width how }
    ensures width { length result ≡ width }
{
    let own = a.width();
    if width <= own {
        return a.cut(0, width);
    }
    let added = match how {
        Extend::Zero => Bit::Zero,
        Extend::One => Bit::One,
        Extend::Sign => top_bit(a),
        Extend::Input(bit) => bit,
    };
    a.glue(&Word::fill(width - own, added))
}
