//! Gates, and buffers with a control.

ghost use Rattle.std.specs.Prelude.{◌≡◌, ◌≤◌, [], ◌∷◌, length, map, replicate, take};
ghost use Rattle.lg_value.specs.Word.{IsWidth};
ghost use Rattle.lg_shapes.specs.Gates.{IsGate, gate_inputs, gate_outputs, read_input, read_inputs, logic_word, gate_words};

use crate::inputs::bit_at;
use lg_gates::{GateKind, OutForm, buffer, controlled, not, shape};
use lg_value::Word;
use sqlite_items::Items;

/// On which side a controlled buffer has its control: its attribute `control`.
#[derive(Clone, Copy, Debug, PartialEq, Eq)]
pub enum ControlSide {
    Right,
    Left,
}

/// A part of the library of gates. Widths are 1 to 64.
#[derive(Debug, Drop)]
pub enum Gate {
    Not {
        width: u32,
        size: u32,
        out: OutForm,
    },
    Buffer {
        width: u32,
        out: OutForm,
    },
    /// A gate of 2 to 64 inputs, with a flag for each that says whether it is negated. The kind says what `xor` does.
    Logic {
        kind: GateKind,
        width: u32,
        size: u32,
        negated: Items<bool>,
        out: OutForm,
    },
    /// Inputs `in` and `ctl`.
    ControlledBuffer {
        width: u32,
        control: ControlSide,
    },
    /// Inputs `in` and `ctl`.
    ControlledInverter {
        width: u32,
        control: ControlSide,
    },
}

impl Gate {
    // The word at the output.
    pub fn answer(&self, strict: bool, attached: &[bool], inputs: &[Word]) -> Word
        requires ranges { IsGate self.now }
        requires attached { length attached.now ≡ length (gate_inputs self.now) }
        requires inputs { map length inputs.now ≡ gate_inputs self.now }
        ensures word { gate_words self.now strict attached.now inputs.now ≡ result ∷ [] }
        ensures width { gate_outputs self.now ≡ length result ∷ [] }
    {
        match self {
            Gate::Not { out, .. } => shape(*out, &not(&inputs[0])),
            Gate::Buffer { out, .. } => shape(*out, &buffer(&inputs[0])),
            Gate::Logic {
                kind,
                width,
                negated,
                out,
                ..
            } => {
                let word = logic_word(*kind, *width, negated.as_slice(), strict, attached, inputs);
                shape(*out, &word)
            }
            Gate::ControlledBuffer { .. } => controlled(false, &inputs[0], bit_at(inputs, 1)),
            Gate::ControlledInverter { .. } => controlled(true, &inputs[0], bit_at(inputs, 1)),
        }
    }
}

// How many inputs have room without a cost that shows.
const FEW: usize = 4;

// The word of a gate before its output form.
fn logic_word(
    kind: GateKind,
    width: u32,
    negated: &[bool],
    strict: bool,
    attached: &[bool],
    inputs: &[Word],
) -> Word
    requires width { IsWidth width }
    requires few { length negated.now ≤ 64 }
    requires attached { length attached.now ≡ length negated.now }
    requires inputs { map length inputs.now ≡ replicate (length negated.now) width }
    ensures word { result ≡ logic_word kind width negated.now strict attached.now inputs.now }
    ensures width { length result ≡ width }
{
    if inputs.len() <= FEW {
        combined(
            kind,
            width,
            negated,
            strict,
            attached,
            inputs,
            &mut [None; FEW],
        )
    } else {
        logic_word_of_many(kind, width, negated, strict, attached, inputs)
    }
}

fn logic_word_of_many(
    kind: GateKind,
    width: u32,
    negated: &[bool],
    strict: bool,
    attached: &[bool],
    inputs: &[Word],
) -> Word
    requires width { IsWidth width }
    requires few { length negated.now ≤ 64 }
    requires attached { length attached.now ≡ length negated.now }
    requires inputs { map length inputs.now ≡ replicate (length negated.now) width }
    ensures word { result ≡ logic_word kind width negated.now strict attached.now inputs.now }
    ensures width { length result ≡ width }
{
    combined(
        kind,
        width,
        negated,
        strict,
        attached,
        inputs,
        &mut [None; 64],
    )
}

// The same, with room for the inputs as the gate reads them.
fn combined(
    kind: GateKind,
    width: u32,
    negated: &[bool],
    strict: bool,
    attached: &[bool],
    inputs: &[Word],
    room: &mut [Option<Word>],
) -> Word
    requires width { IsWidth width }
    requires room { length inputs.now ≤ length room.old }
    requires attached { length attached.now ≡ length negated.now }
    requires inputs { map length inputs.now ≡ replicate (length negated.now) width }
    ensures word { result ≡ logic_word kind width negated.now strict attached.now inputs.now }
    ensures width { length result ≡ width }
{
    read_inputs(negated, attached, inputs, room);
    lg_gates::gate(kind, width, &room[..inputs.len()], strict)
}

// The inputs as a gate reads them, at the front of the room.
fn read_inputs(negated: &[bool], attached: &[bool], inputs: &[Word], room: &mut [Option<Word>])
    requires room { length inputs.now ≤ length room.old }
    requires negated { length negated.now ≡ length inputs.now }
    requires attached { length attached.now ≡ length inputs.now }
    ensures read { take (length inputs.now) room.new ≡ read_inputs negated.now attached.now inputs.now }
    ensures length { length room.new ≡ length room.old }
{
    for k in 0..inputs.len() {
        room[k] = read_input(negated[k], attached[k], &inputs[k]);
    }
}

// An input as a gate reads it.
fn read_input(negated: bool, attached: bool, word: &Word) -> Option<Word>
    ensures { result ≡ read_input negated attached word.now }
{
    match (attached, negated) {
        (false, _) => None,
        (true, false) => Some(*word),
        (true, true) => Some(not(word)),
    }
}
