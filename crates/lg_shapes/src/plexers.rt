//! Plexers.

ghost use Rattle.std.specs.Prelude.{◌≡◌, ◌^◌, ◌≤◌, ◌<◌, true, Some, [], ◌∷◌, ◌++◌, length, map, replicate, take, slice_get};
ghost use Rattle.lg_memory.specs.Inputs.{word_at};
ghost use Rattle.lg_shapes.specs.Plexers.{IsPlexer, IsSelect, plexer_inputs, plexer_outputs, off_bit, off_line, under_enable, first_bits, encoded, encoder_widths, enable_width, multiplexed, demultiplexed, decoded, plexer_words};

use crate::inputs::bit_at;
use lg_gates::{enabled, pick, priority, select_group, spread};
use lg_value::{Bit, Word};

/// What a plexer answers where it is not enabled: its attribute `disabled`.
#[derive(Clone, Copy, Debug, PartialEq, Eq)]
pub enum Disabled {
    /// The output floats.
    Float,
    Zero,
}

/// Where the select of a plexer stands: its attribute `selloc`.
#[derive(Clone, Copy, Debug, PartialEq, Eq)]
pub enum SelectCorner {
    BottomLeft,
    TopRight,
}

/// A part of the library of plexers. Widths are 1 to 64, `select` is the width of a select, 1 to 5, and `enable` says
/// whether there is an input `en`.
#[derive(Clone, Copy, Debug, PartialEq, Eq)]
pub enum Plexer {
    /// Inputs: the data, `sel`, `en`.
    Multiplexer {
        width: u32,
        select: u32,
        enable: bool,
        disabled: Disabled,
        corner: SelectCorner,
    },
    /// Inputs `in`, `sel`, `en`. With `tristate` the outputs that are not selected float.
    Demultiplexer {
        width: u32,
        select: u32,
        enable: bool,
        disabled: Disabled,
        corner: SelectCorner,
        tristate: bool,
    },
    /// Inputs `sel`, `en`.
    Decoder {
        select: u32,
        enable: bool,
        disabled: Disabled,
        tristate: bool,
    },
    /// Inputs: the data, `en`; outputs `addr`, `group`, `eout`.
    PriorityEncoder {
        select: u32,
        disabled: Disabled,
    },
    /// Inputs `in`, `sel`; the output is one group of bits of the input, of 1 bit to all of them.
    BitSelector {
        width: u32,
        group: u32,
    },
}

impl Plexer {
    // The word at an output.
    pub fn answer(&self, inputs: &[Word], output: u32) -> Word
        requires ranges { IsPlexer self.now }
        requires inputs { map length inputs.now ≡ plexer_inputs self.now }
        requires output { output < length (plexer_outputs self.now) }
        ensures word { slice_get (plexer_words self.now inputs.now) output ≡ Some result }
        ensures width { slice_get (plexer_outputs self.now) output ≡ Some (length result) }
    {
        match *self {
            Plexer::Multiplexer {
                select,
                enable,
                disabled,
                ..
            } => multiplexed(select, enable, disabled, inputs),
            Plexer::Demultiplexer {
                enable,
                disabled,
                tristate,
                ..
            } => demultiplexed(enable, disabled, tristate, inputs, output),
            Plexer::Decoder {
                enable,
                disabled,
                tristate,
                ..
            } => decoded(enable, disabled, tristate, inputs, output),
            Plexer::PriorityEncoder { select, disabled } => {
                encoded(select, disabled, inputs, output)
            }
            Plexer::BitSelector { group, .. } => select_group(&inputs[0], &inputs[1], group),
        }
    }
}

// How many lines a select numbers.
fn lines(select: u32) -> usize
    requires { IsSelect select }
    ensures lines { result ≡ 2 ^ select }
    ensures some { 2 ≤ result }
    ensures most { result ≤ 32 }
{
    match select {
        1 => 2,
        2 => 4,
        3 => 8,
        4 => 16,
        _ => 32,
    }
}

// The bit that stands for no answer.
fn off_bit(disabled: Disabled) -> Bit
    ensures { result ≡ off_bit disabled }
{
    match disabled {
        Disabled::Float => Bit::Unknown,
        Disabled::Zero => Bit::Zero,
    }
}

// The bit at an output that is not selected.
fn off_line(tristate: bool) -> Bit
    ensures { result ≡ off_line tristate }
{
    if tristate { Bit::Unknown } else { Bit::Zero }
}

// A word under the enable at an index, where there is one.
fn under_enable(
    enable: bool,
    disabled: Disabled,
    inputs: &[Word],
    index: usize,
    word: &Word,
) -> Word
    requires { enable ≡ true → 1 ≤ length (word_at inputs.now index) }
    ensures word { result ≡ under_enable enable disabled inputs.now index word.now }
    ensures width { length result ≡ length word.now }
{
    if enable {
        enabled(bit_at(inputs, index), word, off_bit(disabled))
    } else {
        *word
    }
}

// The word at the output of a multiplexer.
fn multiplexed(select: u32, enable: bool, disabled: Disabled, inputs: &[Word]) -> Word
    requires select { IsSelect select }
    requires inputs { map length inputs.now ≡ replicate (2 ^ select) (length (word_at inputs.now 0)) ++ select ∷ enable_width enable }
    ensures word { result ≡ multiplexed select enable disabled inputs.now }
    ensures width { length result ≡ length (word_at inputs.now 0) }
{
    let lines = lines(select);
    let word = pick(&inputs[lines], &inputs[..lines]);
    under_enable(enable, disabled, inputs, lines + 1, &word)
}

// The word at an output of a demultiplexer.
fn demultiplexed(
    enable: bool,
    disabled: Disabled,
    tristate: bool,
    inputs: &[Word],
    output: u32,
) -> Word
    requires data { 1 ≤ length (word_at inputs.now 0) }
    requires select { 1 ≤ length (word_at inputs.now 1) }
    requires enable { enable ≡ true → 1 ≤ length (word_at inputs.now 2) }
    ensures word { result ≡ demultiplexed enable disabled tristate inputs.now output }
    ensures width { length result ≡ length (word_at inputs.now 0) }
{
    let word = spread(&inputs[1], &inputs[0], output, off_line(tristate));
    under_enable(enable, disabled, inputs, 2, &word)
}

// The word at an output of a decoder.
fn decoded(enable: bool, disabled: Disabled, tristate: bool, inputs: &[Word], output: u32) -> Word
    requires select { 1 ≤ length (word_at inputs.now 0) }
    requires enable { enable ≡ true → 1 ≤ length (word_at inputs.now 1) }
    ensures word { result ≡ decoded enable disabled tristate inputs.now output }
    ensures width { length result ≡ 1 }
{
    let one = Word::fill(1, Bit::One);
    let word = spread(&inputs[0], &one, output, off_line(tristate));
    under_enable(enable, disabled, inputs, 1, &word)
}

// The word at an output of a priority encoder.
fn encoded(select: u32, disabled: Disabled, inputs: &[Word], output: u32) -> Word
    requires select { IsSelect select }
    requires inputs { map length inputs.now ≡ replicate (2 ^ select) 1 ++ 1 ∷ [] }
    requires output { output < 3 }
    ensures word { slice_get (encoded select disabled inputs.now) output ≡ Some result }
    ensures width { slice_get (encoder_widths select) output ≡ Some (length result) }
{
    let lines = lines(select);
    let mut bits = [Bit::Zero; 32];
    read_bits(&inputs[..lines], &mut bits);
    let (address, group, enable) = priority(
        &bits[..lines],
        bit_at(inputs, lines),
        select,
        off_bit(disabled),
    );
    match output {
        0 => address,
        1 => Word::fill(1, group),
        _ => Word::fill(1, enable),
    }
}

// The lowest bits of some words, at the front of the room.
fn read_bits(words: &[Word], room: &mut [Bit])
    requires room { length words.now ≤ length room.old }
    requires words { map length words.now ≡ replicate (length words.now) 1 }
    ensures read { take (length words.now) room.new ≡ first_bits words.now }
    ensures length { length room.new ≡ length room.old }
{
    for k in 0..words.len() {
        room[k] = bit_at(words, k);
    }
}
