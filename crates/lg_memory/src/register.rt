//! What a triggered register holds.

ghost use Rattle.std.specs.Prelude.{◌≡◌};
ghost use Rattle.lg_memory.specs.Register.{registered};

use lg_value::{Bit, Word};

// The data, unless the enable is 0.
pub fn registered(held: &Word, d: &Word, enable: Bit) -> Word
    ensures { result ≡ registered held.now d.now enable }
{
    match enable {
        Bit::Zero => *held,
        Bit::One | Bit::Unknown | Bit::Error => *d,
    }
}
