//! Parts of the tests: gates, a constant, delay lines and a flip-flop, with ports of one bit.

ghost use Rattle.std.specs.Prelude.{◌≡◌, IfOk};
ghost use Rattle.lg_timing.specs.Samples.{bit_in, one_word};
ghost use Rattle.lg_base_tests.specs.TimingSamples.{and_bit, rises};
ghost use Rattle.lg_value.specs.Bit.{not_bit};

use lg_instants::{Behaviour, Port};
use lg_value::{Bit, Word};
use std::alloc::{AllocError, Global};

/// What a part does.
#[derive(Clone, Copy)]
pub(crate) enum Kind {
    Not,
    And,
    Nand,
    /// It gives its input as it is, after 3 instants.
    Line3,
    /// The same after 5.
    Line5,
    Constant,
    FlipFlop,
}

/// A part.
#[derive(Drop)]
pub(crate) struct Sample {
    pub kind: Kind,
    pub inputs: Vec<Port>,
    pub outputs: Vec<Port>,
}

fn bit_in(words: &[Word], place: usize) -> Bit
    ensures { result ≡ bit_in words.now place }
{
    match words.get(place) {
        Some(word) if word.width() > 0 => word.bit(0),
        _ => Bit::Unknown,
    }
}

fn not_bit(bit: Bit) -> Bit
    ensures { result ≡ not_bit bit }
{
    match bit {
        Bit::Zero => Bit::One,
        Bit::One => Bit::Zero,
        Bit::Unknown | Bit::Error => Bit::Error,
    }
}

fn and_bit(a: Bit, b: Bit) -> Bit
    ensures { result ≡ and_bit a b }
{
    match (a, b) {
        (Bit::Zero, _) | (_, Bit::Zero) => Bit::Zero,
        (Bit::One, Bit::One) => Bit::One,
        _ => Bit::Error,
    }
}

fn one_word(alloc: Global, bit: Bit) -> Result<Vec<Word>, AllocError>
    ensures { IfOk result (λ words. words.items ≡ one_word bit) }
{
    let mut words = Vec::new(alloc);
    words.push(Word::fill(1, bit))?;
    Ok(words)
}

fn rises(before: &[Word], now: &[Word]) -> bool
    ensures { result ≡ rises before.now now.now }
{
    bit_in(before, 1) == Bit::Zero && bit_in(now, 1) == Bit::One
}

impl Behaviour for Sample {
    ghost use Rattle.lg_base_tests.specs.declared.timing_samples.Kind.TheVariants.{Not, And, Nand, Line3, Line5, Constant, FlipFlop};
    ghost use Rattle.lg_timing.specs.Samples.{not_gate};
    ghost use Rattle.lg_base_tests.specs.TimingSamples.{and_gate, nand_gate, line_in, constant, flip_flop};

    ghost meaning = { λ s. elim s.kind [
      | Not ↦ not_gate s.inputs.items s.outputs.items
      | And ↦ and_gate s.inputs.items s.outputs.items
      | Nand ↦ nand_gate s.inputs.items s.outputs.items
      | Line3 ↦ line_in 3 s.inputs.items s.outputs.items
      | Line5 ↦ line_in 5 s.inputs.items s.outputs.items
      | Constant ↦ constant s.inputs.items s.outputs.items
      | FlipFlop ↦ flip_flop s.inputs.items s.outputs.items
    ] };

    fn delay(&self) -> u32 {
        match self.kind {
            Kind::Line3 => 3,
            Kind::Line5 | Kind::FlipFlop => 5,
            _ => 1,
        }
    }

    fn inputs(&self) -> &[Port] {
        self.inputs.as_slice()
    }

    fn outputs(&self) -> &[Port] {
        self.outputs.as_slice()
    }

    fn start(&self, alloc: Global) -> Result<Vec<Word>, AllocError> {
        match self.kind {
            Kind::FlipFlop => one_word(alloc, Bit::Zero),
            _ => Ok(Vec::new(alloc)),
        }
    }

    fn step(
        &self,
        alloc: Global,
        state: &[Word],
        before: &[Word],
        now: &[Word],
    ) -> Result<Vec<Word>, AllocError> {
        match self.kind {
            Kind::FlipFlop if rises(before, now) => one_word(alloc, bit_in(now, 0)),
            _ => Vec::from_slice(alloc, state),
        }
    }

    fn out(&self, alloc: Global, state: &[Word], inputs: &[Word]) -> Result<Vec<Word>, AllocError> {
        match self.kind {
            Kind::Not => one_word(alloc, not_bit(bit_in(inputs, 0))),
            Kind::And => one_word(alloc, and_bit(bit_in(inputs, 0), bit_in(inputs, 1))),
            Kind::Nand => one_word(
                alloc,
                not_bit(and_bit(bit_in(inputs, 0), bit_in(inputs, 1))),
            ),
            Kind::Line3 | Kind::Line5 => one_word(alloc, bit_in(inputs, 0)),
            Kind::Constant => one_word(alloc, Bit::One),
            Kind::FlipFlop => {
                let mut words = one_word(alloc, bit_in(state, 0))?;
                words.push(Word::fill(1, not_bit(bit_in(state, 0))))?;
                Ok(words)
            }
        }
    }
}
