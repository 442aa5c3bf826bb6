//! Outputs of one input: NOT, buffers, controlled buffers, and the output forms of a gate.

ghost use Rattle.std.specs.Prelude.{◌≡◌, length};
ghost use Rattle.lg_value.specs.Bit.{not_bit};
ghost use Rattle.lg_gates.specs.Shape.{not_word, buffer_bit, buffer_word, controlled_word, shape_bit, shape_word};

use lg_value::{Bit, Word};

/// Which values an output drives; the other one floats.
#[derive(Clone, Copy, Debug, PartialEq, Eq)]
pub enum OutForm {
    /// 0 and 1 are driven.
    ZeroOne,
    /// 0 is driven, 1 floats.
    ZeroFloat,
    /// 1 is driven, 0 floats.
    FloatOne,
}

// The inversion of a bit, which keeps an error.
fn not_bit(bit: Bit) -> Bit
    ensures { result ≡ not_bit bit }
{
    match bit {
        Bit::Zero => Bit::One,
        Bit::One => Bit::Zero,
        Bit::Unknown | Bit::Error => Bit::Error,
    }
}

// A buffered bit.
fn buffer_bit(bit: Bit) -> Bit
    ensures { result ≡ buffer_bit bit }
{
    match bit {
        Bit::Zero | Bit::One => bit,
        Bit::Unknown | Bit::Error => Bit::Error,
    }
}

// A bit in an output form.
fn shape_bit(form: OutForm, bit: Bit) -> Bit
    ensures { result ≡ shape_bit form bit }
{
    match (form, bit) {
        (OutForm::ZeroFloat, Bit::One) | (OutForm::FloatOne, Bit::Zero) => Bit::Unknown,
        _ => bit,
    }
}

/// The word of a NOT gate: each bit inverted. An undefined bit gives an error.
pub fn not(a: &Word) -> Word
    ensures word { result ≡ not_word a.now }
    ensures width { length result ≡ length a.now }
{
    a.map(not_bit)
}

/// The word of a buffer: the input's, in which an undefined bit gives an error.
pub fn buffer(a: &Word) -> Word
    ensures word { result ≡ buffer_word a.now }
    ensures width { length result ≡ length a.now }
{
    a.map(buffer_bit)
}

/// The word of a controlled buffer, or where `invert` is set of a controlled inverter. A control of 1
/// passes the input as it is, or as NOT does; 0 leaves the output floating; an undefined control gives
/// an error in each bit.
pub fn controlled(invert: bool, input: &Word, control: Bit) -> Word
    ensures word { result ≡ controlled_word invert input.now control }
    ensures width { length result ≡ length input.now }
{
    match control {
        Bit::One if invert => not(input),
        Bit::One => *input,
        Bit::Zero => Word::fill(input.width(), Bit::Unknown),
        Bit::Unknown | Bit::Error => Word::fill(input.width(), Bit::Error),
    }
}

/// The word in an output form.
pub fn shape(form: OutForm, a: &Word) -> Word
    ensures word { result ≡ shape_word form a.now }
    ensures width { length result ≡ length a.now }
{
    a.map(|bit| shape_bit(form, bit))
}
