//! Constants and bit extenders.

ghost use Rattle.std.specs.Prelude.{◌≡◌, [], ◌∷◌, length, map};
ghost use Rattle.lg_shapes.specs.Wiring.{IsWiring, HasExtension, wiring_inputs, wiring_outputs, extension_of, wiring_words};

use crate::inputs::bit_at;
use lg_arith::{Extend, extend};
use lg_value::{Bit, Word};

/// What stands in the places that a bit extender adds: its attribute `type`.
#[derive(Clone, Copy, Debug, PartialEq, Eq)]
pub enum Extension {
    Zero,
    One,
    /// The top bit of the input.
    Sign,
    /// The bit at the input `ext`.
    Input,
}

/// A part of the wiring library. Widths are 1 to 64.
#[derive(Clone, Copy, Debug, PartialEq, Eq)]
pub enum Wiring {
    Constant {
        value: Word,
    },
    Power {
        width: u32,
    },
    Ground {
        width: u32,
    },
    /// Inputs `in` and, where the extension is an input, `ext`.
    BitExtender {
        in_width: u32,
        out_width: u32,
        extension: Extension,
    },
}

impl Wiring {
    // The word at the output.
    pub fn answer(&self, inputs: &[Word]) -> Word
        requires ranges { IsWiring self.now }
        requires inputs { map length inputs.now ≡ wiring_inputs self.now }
        ensures word { wiring_words self.now inputs.now ≡ result ∷ [] }
        ensures width { wiring_outputs self.now ≡ length result ∷ [] }
    {
        match self {
            Wiring::Constant { value } => *value,
            Wiring::Power { width } => Word::fill(*width, Bit::One),
            Wiring::Ground { width } => Word::fill(*width, Bit::Zero),
            Wiring::BitExtender {
                out_width,
                extension,
                ..
            } => { extend(&inputs[0], *out_width, extension_of(*extension, inputs)) }
        }
    }
}

// What stands in the added places.
fn extension_of(extension: Extension, inputs: &[Word]) -> Extend
    requires { HasExtension extension inputs.now }
    ensures { result ≡ extension_of extension inputs.now }
{
    match extension {
        Extension::Zero => Extend::Zero,
        Extension::One => Extend::One,
        Extension::Sign => Extend::Sign,
        Extension::Input => Extend::Input(bit_at(inputs, 1)),
    }
}
