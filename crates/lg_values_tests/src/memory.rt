//! Values that a person worked out from the tables of the kinds.

ghost use Rattle.std.specs.Prelude.{◌≡◌, [], ◌∷◌};

use lg_value::{Bit, Word};

mod counters;
mod images;
mod stores;

// A word of one bit.
fn one(bit: Bit) -> Word
    ensures { result ≡ bit ∷ [] }
{
    Word::fill(1, bit)
}
