//! What a triggered flip-flop stores.

ghost use Rattle.std.specs.Prelude.{◌≡◌, ◌≤◌, length, map};
ghost use Rattle.lg_value.specs.Bit.{not_bit};
ghost use Rattle.lg_memory.specs.Inputs.{word_at};
ghost use Rattle.lg_memory.specs.FlipFlop.{toggled, jk_stored, sr_stored, flip_stored};

use crate::form::FlipKind;
use crate::inputs::bit_at;
use lg_value::{Bit, Word};

// The bit that a triggered flip-flop stores, from the bit that it holds and its inputs.
pub fn flip_stored(kind: FlipKind, q: Bit, inputs: &[Word]) -> Bit
    requires first { 1 ≤ length (word_at inputs.now 0) }
    requires second { 1 ≤ length (word_at inputs.now 1) }
    ensures { result ≡ flip_stored kind q inputs.now }
{
    match kind {
        FlipKind::D => bit_at(inputs, 0),
        FlipKind::T => toggled(q, bit_at(inputs, 0)),
        FlipKind::Jk => jk_stored(q, bit_at(inputs, 0), bit_at(inputs, 1)),
        FlipKind::Sr => sr_stored(q, bit_at(inputs, 0), bit_at(inputs, 1)),
    }
}

// The inversion of a word of one bit.
pub fn inverted(word: &Word) -> Word
    requires { length word.now ≡ 1 }
    ensures bits { result ≡ map not_bit word.now }
    ensures width { length result ≡ 1 }
{
    Word::fill(1, not_bit(word.bit(0)))
}

// The inversion of a bit.
fn not_bit(bit: Bit) -> Bit
    ensures { result ≡ not_bit bit }
{
    match bit {
        Bit::Zero => Bit::One,
        Bit::One => Bit::Zero,
        Bit::Unknown | Bit::Error => Bit::Error,
    }
}

fn toggled(q: Bit, t: Bit) -> Bit
    ensures { result ≡ toggled q t }
{
    match t {
        Bit::Zero => q,
        Bit::One => not_bit(q),
        Bit::Unknown | Bit::Error => Bit::Error,
    }
}

fn jk_stored(q: Bit, j: Bit, k: Bit) -> Bit
    ensures { result ≡ jk_stored q j k }
{
    match (j, k) {
        (Bit::Zero, Bit::Zero) => q,
        (Bit::Zero, Bit::One) => Bit::Zero,
        (Bit::One, Bit::Zero) => Bit::One,
        (Bit::One, Bit::One) => not_bit(q),
        _ => Bit::Error,
    }
}

fn sr_stored(q: Bit, s: Bit, r: Bit) -> Bit
    ensures { result ≡ sr_stored q s r }
{
    match (s, r) {
        (Bit::Zero, Bit::Zero) | (Bit::One, Bit::One) => q,
        (Bit::Zero, Bit::One) => Bit::Zero,
        (Bit::One, Bit::Zero) => Bit::One,
        _ => Bit::Error,
    }
}
