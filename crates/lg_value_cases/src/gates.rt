//! Calls of gates and of what has one input, of `lg_gates`.

ghost use Rattle.std.specs.Bool.{OnTrue};
ghost use Rattle.lg_gates.specs.Gate.{HaveWidth};

use crate::answer::Answer::{self, One};
use crate::bits::only_bit;
use crate::call::Call;
use lg_gates::{GateKind, OutForm, buffer, controlled, gate, not, shape};
use lg_value::{Bit, Word};

/// The kinds in the order in which `gates` answers for them.
const KINDS: [GateKind; 10] = [
    GateKind::And,
    GateKind::Or,
    GateKind::Nand,
    GateKind::Nor,
    GateKind::XorOne,
    GateKind::XorOdd,
    GateKind::XnorOne,
    GateKind::XnorOdd,
    GateKind::OddParity,
    GateKind::EvenParity,
];

/// What a call answers, if it is one of these in form.
pub fn answer(call: &Call) -> Option<Answer> {
    let name = call.name.as_str();
    match (call.words.as_slice(), call.numbers.as_slice()) {
        (_, [width]) => gate_of(name, *width, &call.inputs),
        (_, []) if name == "gates" => Some(One(of_each_kind(&call.inputs))),
        ([a], []) => output_of(name, a),
        ([a, control], []) => controlled_by(name, a, only_bit(control)?),
        _ => None,
    }
}

// Whether each attached input has this width.
fn have_width(width: u32, inputs: &[Option<Word>]) -> bool
    ensures { OnTrue result (HaveWidth width inputs.now) }
{
    inputs.iter().all(|input| match input {
        Some(word) => word.width() == width,
        None => true,
    })
}

// A gate of inputs of a width, which may ask for every input.
fn gate_of(name: &str, width: u32, inputs: &[Option<Word>]) -> Option<Answer> {
    let (strict, name) = match name.strip_prefix("strict_") {
        Some(name) => (true, name),
        None => (false, name),
    };
    let kind = match name {
        "and" => GateKind::And,
        "or" => GateKind::Or,
        "nor" => GateKind::Nor,
        "xor_one" => GateKind::XorOne,
        "even" => GateKind::EvenParity,
        _ => return None,
    };
    if 1 <= width && width <= 64 && have_width(width, inputs) {
        Some(One(gate(kind, width, inputs, strict)))
    } else {
        None
    }
}

// What the gates of each kind answer to inputs of one bit: a bit for each, the first the highest.
fn of_each_kind(inputs: &[Option<Word>]) -> Word {
    let mut bits = Word::fill(1, Bit::Unknown);
    if !have_width(1, inputs) {
        return bits;
    }
    for kind in KINDS {
        if bits.width() < 64 {
            bits = gate(kind, 1, inputs, false).glue(&bits);
        }
    }
    bits.cut(0, bits.width().min(10))
}

fn output_of(name: &str, word: &Word) -> Option<Answer> {
    let out = match name {
        "not" => not(word),
        "buffer" => buffer(word),
        "shape_01" => shape(OutForm::ZeroOne, word),
        "shape_0x" => shape(OutForm::ZeroFloat, word),
        "shape_x1" => shape(OutForm::FloatOne, word),
        _ => return None,
    };
    Some(One(out))
}

fn controlled_by(name: &str, word: &Word, control: Bit) -> Option<Answer> {
    match name {
        "controlled_buffer" => Some(One(controlled(false, word, control))),
        "controlled_not" => Some(One(controlled(true, word, control))),
        _ => None,
    }
}
