//! Bits, tests and numbers as words.

ghost use Rattle.std.specs.Prelude.{◌≡◌, [], ◌∷◌};

use lg_value::{Bit, Word};

/// A word of one bit.
pub fn one(bit: Bit) -> Word
    ensures { result ≡ bit ∷ [] }
{
    Word::fill(1, bit)
}

/// The bit of a word of one.
pub fn only_bit(word: &Word) -> Option<Bit> {
    if word.width() == 1 {
        Some(word.bit(0))
    } else {
        None
    }
}

/// 1 where a test holds, else 0.
pub fn tested(holds: bool) -> Word {
    Word::fill(1, if holds { Bit::One } else { Bit::Zero })
}

/// A number in 64 bits.
pub fn counted(number: u64) -> Word {
    Word::from_number(64, number)
}
