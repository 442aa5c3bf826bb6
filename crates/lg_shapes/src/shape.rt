//! Shapes of every library, and what they answer, keep and read.

ghost use Rattle.std.specs.Prelude.{◌≡◌, ◌<◌, Some, length, map, slice_get, IfOk};
ghost use Rattle.lg_memory.specs.Shape.{words_of};
ghost use Rattle.lg_shapes.specs.Shapes.{IsShape, HasState, input_widths, output_widths, output_words, start_words, stepped};

use crate::arithmetic::Arithmetic;
use crate::gates::Gate;
use crate::plexers::Plexer;
use crate::wiring::Wiring;
use lg_memory::{Memory, State, StateForm};
use lg_value::Word;
use std::alloc::Global;

/// What a part is by its attributes, as they are read: a variant for each library, and below it one for each of its kinds,
/// with a field for each attribute that has more than one value. Gates of several inputs are one variant, and so are
/// flip-flops, each with its kind as a field.
#[derive(Debug, Drop)]
pub enum Shape {
    Wiring(Wiring),
    Gate(Gate),
    Plexer(Plexer),
    Arithmetic(Arithmetic),
    Memory(StateForm),
}

impl Shape {
    /// The word at an output, from what the part holds and the words of its inputs. A gate of several inputs leaves out those
    /// that are not attached; it is in error where none is, and with `strict` where some are not. For an input of another part
    /// to which nothing is attached the caller gives the word that is read there.
    ///
    /// The numbers of the shape are in their ranges, the state is one of the shape, there is a flag and a word for each input,
    /// the word in its port's width, and there is such an output.
    pub fn out(
        &self,
        strict: bool,
        attached: &[bool],
        state: &State,
        inputs: &[Word],
        output: u32,
    ) -> Word
        requires ranges { IsShape self.now }
        requires state { HasState self.now state.now }
        requires attached { length attached.now ≡ length (input_widths self.now) }
        requires inputs { map length inputs.now ≡ input_widths self.now }
        requires output { output < length (output_widths self.now) }
        ensures word { slice_get (output_words self.now strict attached.now (words_of state.now) inputs.now) output ≡ Some result }
        ensures width { slice_get (output_widths self.now) output ≡ Some (length result) }
    {
        match self {
            Shape::Wiring(part) => part.answer(inputs),
            Shape::Gate(gate) => gate.answer(strict, attached, inputs),
            Shape::Plexer(plexer) => plexer.answer(inputs, output),
            Shape::Arithmetic(part) => part.answer(inputs, output),
            Shape::Memory(form) => lg_memory::out(form, state, inputs, output),
        }
    }

    /// What a part holds at the start. The numbers of the shape are in their ranges.
    pub fn start(&self, alloc: Global) -> Result<State, Memory>
        requires { IsShape self.now }
        ensures words { IfOk result (λ state. words_of state ≡ start_words self.now) }
        ensures state { IfOk result (λ state. HasState self.now state) }
    {
        match self {
            Shape::Memory(form) => lg_memory::start(alloc, form),
            _ => Ok(State::None),
        }
    }

    /// Makes a state of the shape the one at the start.
    pub fn renew(&self, state: &mut State)
        requires ranges { IsShape self.now }
        requires state { HasState self.now state.old }
        ensures words { words_of state.new ≡ start_words self.now }
        ensures state { HasState self.now state.new }
    {
        if let Shape::Memory(form) = self {
            lg_memory::renew(form, state);
        }
    }

    /// One step: what the part holds once its inputs go from `old` to `new`.
    pub fn step(&self, state: &mut State, old: &[Word], new: &[Word])
        requires ranges { IsShape self.now }
        requires state { HasState self.now state.old }
        requires old { map length old.now ≡ input_widths self.now }
        requires new { map length new.now ≡ input_widths self.now }
        ensures words { words_of state.new ≡ stepped self.now (words_of state.old) old.now new.now }
        ensures state { HasState self.now state.new }
    {
        if let Shape::Memory(form) = self {
            lg_memory::step(form, state, old, new);
        }
    }
}
