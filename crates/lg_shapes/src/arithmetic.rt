//! Arithmetic.

ghost use Rattle.std.specs.Prelude.{◌≡◌, ◌<◌, [], ◌∷◌, Some, length, map, slice_get};
ghost use Rattle.lg_shapes.specs.Arithmetic.{IsArithmetic, arithmetic_inputs, arithmetic_outputs, arithmetic_words, compared, is_signed};

use crate::inputs::bit_at;
use lg_arith::{ShiftKind, add, compare, count_ones, div, mul, negate, shift, sub};
use lg_value::{Bit, Word};

/// How a comparator reads its words: its attribute `mode`.
#[derive(Clone, Copy, Debug, PartialEq, Eq)]
pub enum Mode {
    Unsigned,
    TwosComplement,
}

/// A part of the library of arithmetic. Widths are 1 to 64.
#[derive(Clone, Copy, Debug, PartialEq, Eq)]
pub enum Arithmetic {
    /// Inputs `a`, `b`, `cin`; outputs `out`, `cout`.
    Adder { width: u32 },
    /// Inputs `a`, `b`, `cin`; outputs `out`, `cout`.
    Subtractor { width: u32 },
    /// Inputs `a`, `b`, `cin`; outputs `out`, `high`.
    Multiplier { width: u32 },
    /// Inputs `a`, `b`, `upper`; outputs `out`, `rem`.
    Divider { width: u32 },
    Negator { width: u32 },
    /// Inputs `a`, `b`; outputs `gt`, `eq`, `lt`.
    Comparator { width: u32, mode: Mode },
    /// Inputs `in`, `dist`.
    Shifter { width: u32, shift: ShiftKind },
    /// Of 1 to 64 inputs.
    BitAdder { width: u32, inputs: u32 },
}

impl Arithmetic {
    // The word at an output.
    pub fn answer(&self, inputs: &[Word], output: u32) -> Word
        requires ranges { IsArithmetic self.now }
        requires inputs { map length inputs.now ≡ arithmetic_inputs self.now }
        requires output { output < length (arithmetic_outputs self.now) }
        ensures word { slice_get (arithmetic_words self.now inputs.now) output ≡ Some result }
        ensures width { slice_get (arithmetic_outputs self.now) output ≡ Some (length result) }
    {
        match *self {
            Arithmetic::Adder { .. } => {
                word_or_bit(add(&inputs[0], &inputs[1], bit_at(inputs, 2)), output)
            }
            Arithmetic::Subtractor { .. } => {
                word_or_bit(sub(&inputs[0], &inputs[1], bit_at(inputs, 2)), output)
            }
            Arithmetic::Multiplier { .. } => {
                one_of_two(mul(&inputs[0], &inputs[1], &inputs[2]), output)
            }
            Arithmetic::Divider { .. } => {
                one_of_two(div(&inputs[0], &inputs[1], &inputs[2]), output)
            }
            Arithmetic::Negator { .. } => negate(&inputs[0]),
            Arithmetic::Comparator { mode, .. } => {
                compared(mode, &inputs[0], &inputs[1], output)
            }
            Arithmetic::Shifter { shift: kind, .. } => shift(kind, &inputs[0], &inputs[1]),
            Arithmetic::BitAdder { .. } => count_ones(inputs),
        }
    }
}

// Whether a comparator reads two's complement numbers.
fn is_signed(mode: Mode) -> bool
    ensures { result ≡ is_signed mode }
{
    match mode {
        Mode::Unsigned => false,
        Mode::TwosComplement => true,
    }
}

// The word, or the bit as a word.
fn word_or_bit(pair: (Word, Bit), output: u32) -> Word
    requires { output < 2 }
    ensures { slice_get (pair.0 ∷ (pair.1 ∷ []) ∷ []) output ≡ Some result }
{
    if output == 0 {
        pair.0
    } else {
        Word::fill(1, pair.1)
    }
}

// One of two words.
fn one_of_two(pair: (Word, Word), output: u32) -> Word
    requires { output < 2 }
    ensures { slice_get (pair.0 ∷ pair.1 ∷ []) output ≡ Some result }
{
    if output == 0 { pair.0 } else { pair.1 }
}

// The word at an output of a comparator.
fn compared(mode: Mode, a: &Word, b: &Word, output: u32) -> Word
    requires widths { length a.now ≡ length b.now }
    requires output { output < 3 }
    ensures word { slice_get (compared mode a.now b.now) output ≡ Some result }
    ensures width { length result ≡ 1 }
{
    let (greater, equal, less) = compare(a, b, is_signed(mode));
    match output {
        0 => Word::fill(1, greater),
        1 => Word::fill(1, equal),
        _ => Word::fill(1, less),
    }
}
