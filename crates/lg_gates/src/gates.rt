//! Gates of any number of inputs.

ghost use Rattle.std.specs.Prelude.{◌≡◌, ℕ, ◌<◌, is_none, length, slice_index_or};
ghost use Rattle.std.specs.List.{list_all, list_any};
ghost use Rattle.lg_value.specs.Word.{IsWidth};
ghost use Rattle.lg_gates.specs.Gate.{and_bit, or_bit, odd_bit, exactly_one_bit, attached, bits_at, lacks_inputs, gate_word, HaveWidth};

use crate::outputs::not;
use lg_value::{Bit, Word};

/// The kinds of gates that take any number of inputs.
#[derive(Clone, Copy, Debug, PartialEq, Eq)]
pub enum GateKind {
    /// 1 where every input is 1.
    And,
    /// 1 where some input is 1.
    Or,
    /// AND, inverted.
    Nand,
    /// OR, inverted.
    Nor,
    /// XOR that is 1 where exactly one input is 1.
    XorOne,
    /// XOR that is 1 where an odd number of inputs is 1.
    XorOdd,
    /// XOR of exactly one, inverted.
    XnorOne,
    /// XOR of an odd number, inverted.
    XnorOdd,
    /// 1 where an odd number of inputs is 1.
    OddParity,
    /// 1 where an even number of inputs is 1.
    EvenParity,
}

// The AND of the attached inputs.
fn and(width: u32, inputs: &[Option<Word>]) -> Word
    requires in_range { IsWidth width }
    requires widths { HaveWidth width inputs.now }
    ensures bits { (k : ℕ) → k < width → slice_index_or result k Bit.Unknown
        ≡ and_bit (bits_at k (attached inputs.now)) }
    ensures width { length result ≡ width }
{
    let mut word = Word::fill(width, Bit::One);
    for input in inputs {
        if let Some(input) = input {
            word = word.and(input);
        }
    }
    word
}

// The OR of the attached inputs.
fn or(width: u32, inputs: &[Option<Word>]) -> Word
    requires in_range { IsWidth width }
    requires widths { HaveWidth width inputs.now }
    ensures bits { (k : ℕ) → k < width → slice_index_or result k Bit.Unknown
        ≡ or_bit (bits_at k (attached inputs.now)) }
    ensures width { length result ≡ width }
{
    let mut word = Word::fill(width, Bit::Zero);
    for input in inputs {
        if let Some(input) = input {
            word = word.or(input);
        }
    }
    word
}

// Where an odd number of the attached inputs is 1.
fn odd(width: u32, inputs: &[Option<Word>]) -> Word
    requires in_range { IsWidth width }
    requires widths { HaveWidth width inputs.now }
    ensures bits { (k : ℕ) → k < width → slice_index_or result k Bit.Unknown
        ≡ odd_bit (bits_at k (attached inputs.now)) }
    ensures width { length result ≡ width }
{
    let mut word = Word::fill(width, Bit::Zero);
    for input in inputs {
        if let Some(input) = input {
            word = word.xor(input);
        }
    }
    word
}

// Where exactly one of the attached inputs is 1.
fn exactly_one(width: u32, inputs: &[Option<Word>]) -> Word
    requires in_range { IsWidth width }
    requires widths { HaveWidth width inputs.now }
    ensures bits { (k : ℕ) → k < width → slice_index_or result k Bit.Unknown
        ≡ exactly_one_bit (bits_at k (attached inputs.now)) }
    ensures width { length result ≡ width }
{
    let mut odd = Word::fill(width, Bit::Zero);
    let mut many = Word::fill(width, Bit::Zero);
    for input in inputs {
        if let Some(input) = input {
            many = many.or(&odd.and(input));
            odd = odd.xor(input);
        }
    }
    // An odd number is one, unless it is many.
    odd.xor(&odd.and(&many))
}

// Whether nothing is attached to any input.
fn none_attached(inputs: &[Option<Word>]) -> bool
    ensures { result ≡ list_all is_none inputs.now }
{
    inputs.iter().all(|input| input.is_none())
}

// Whether nothing is attached to some input.
fn some_unattached(inputs: &[Option<Word>]) -> bool
    ensures { result ≡ list_any is_none inputs.now }
{
    inputs.iter().any(|input| input.is_none())
}

// Whether a gate is in error whatever its inputs hold.
fn lacks_inputs(inputs: &[Option<Word>], strict: bool) -> bool
    ensures { result ≡ lacks_inputs strict inputs.now }
{
    none_attached(inputs) || (strict && some_unattached(inputs))
}

/// The word of a gate, bit by bit. An input that is `None` has nothing attached and is ignored; a gate
/// without an attached input is in error. Where `strict` is set, which is the project option "Gate
/// Output When Undefined" at "error", any such input puts every bit in error. The width is 1 to 64, and
/// each attached input has it.
pub fn gate(kind: GateKind, width: u32, inputs: &[Option<Word>], strict: bool) -> Word
    requires in_range { IsWidth width }
    requires widths { HaveWidth width inputs.now }
    ensures word { result ≡ gate_word kind width inputs.now strict }
    ensures width { length result ≡ width }
{
    if lacks_inputs(inputs, strict) {
        return Word::fill(width, Bit::Error);
    }
    match kind {
        GateKind::And => and(width, inputs),
        GateKind::Nand => not(&and(width, inputs)),
        GateKind::Or => or(width, inputs),
        GateKind::Nor => not(&or(width, inputs)),
        GateKind::XorOne => exactly_one(width, inputs),
        GateKind::XnorOne => not(&exactly_one(width, inputs)),
        GateKind::XorOdd | GateKind::OddParity => odd(width, inputs),
        GateKind::XnorOdd | GateKind::EvenParity => not(&odd(width, inputs)),
    }
}
