//! Steps and outputs of every form.

ghost use Rattle.std.specs.Prelude.{◌≡◌, ◌<◌, [], ◌∷◌, length, slice_get, Some};
ghost use Rattle.lg_memory.specs.declared.state.State.TheVariants.{None as NoWord, One as OneWord, Many as ManyWords};
ghost use Rattle.lg_memory.specs.Form.{IsForm};
ghost use Rattle.lg_memory.specs.Shape.{FitsInputs, HasShape, words_of, output_widths};
ghost use Rattle.lg_memory.specs.Step.{triggered_words, stepped, outputs};

use crate::counter::{carry, counter_word};
use crate::event::{Event, event_between};
use crate::flip_flop::{flip_stored, inverted};
use crate::form::StateForm;
use crate::inputs::{bit_at, defined_number};
use crate::register::registered;
use crate::shift_register::shift_words;
use crate::state::{State, renew};
use crate::storage::{ram_read, rom_read, store};
use lg_value::{Bit, Word};
use sqlite_items::Items;

/// One step: what the part holds once its inputs go from `old` to `new`. Clear and preset act at every step, clear
/// before preset; else a part stores where its clock triggers.
///
/// The form's numbers and its trigger are in their ranges, the state has the form's shape, and there is a word for each
/// input, in the port's width.
pub fn step(form: &StateForm, state: &mut State, old: &[Word], new: &[Word])
    requires form { IsForm form.now }
    requires shape { HasShape form.now state.old }
    requires old { FitsInputs form.now old.now }
    requires new { FitsInputs form.now new.now }
    ensures words { words_of state.new ≡ stepped form.now (words_of state.old) old.now new.now }
    ensures shape { HasShape form.now state.new }
{
    match event_between(form, old, new) {
        Event::Clear => renew(form, state),
        Event::Preset => *state = State::One(Word::fill(1, Bit::One)),
        Event::Triggered => update(form, state, new),
        Event::Rest => {}
    }
}

// What a trigger makes of a state.
fn update(form: &StateForm, state: &mut State, inputs: &[Word])
    requires form { IsForm form.now }
    requires shape { HasShape form.now state.old }
    requires inputs { FitsInputs form.now inputs.now }
    ensures words { words_of state.new ≡ triggered_words form.now (words_of state.old) inputs.now }
    ensures shape { HasShape form.now state.new }
{
    match state {
        State::None => {}
        State::One(word) => *word = updated(form, word, inputs),
        State::Many(words) => update_words(form, words, inputs),
    }
}

fn updated(form: &StateForm, held: &Word, inputs: &[Word]) -> Word
    requires form { IsForm form.now }
    requires shape { HasShape form.now (OneWord held.now) }
    requires inputs { FitsInputs form.now inputs.now }
    ensures words { result ∷ [] ≡ triggered_words form.now (held.now ∷ []) inputs.now }
    ensures width { length result ≡ length held.now }
{
    match form {
        StateForm::Flip { kind, .. } => Word::fill(1, flip_stored(*kind, held.bit(0), inputs)),
        StateForm::Register { .. } => registered(held, &inputs[0], bit_at(inputs, 1)),
        StateForm::Counter {
            width,
            max,
            goal,
            ..
        } => { counter_word(*goal, *width, *max, held, inputs) }
        StateForm::Shift { .. } | StateForm::Rom { .. } | StateForm::Ram { .. } => unreachable!(),
    }
}

fn update_words(form: &StateForm, words: &mut Items<Word>, inputs: &[Word])
    requires form { IsForm form.now }
    requires shape { HasShape form.now (ManyWords words.old) }
    requires inputs { FitsInputs form.now inputs.now }
    ensures words { words.new ≡ triggered_words form.now words.old inputs.now }
    ensures shape { HasShape form.now (ManyWords words.new) }
{
    match form {
        StateForm::Shift { parallel, .. } => shift_words(*parallel, words, inputs),
        StateForm::Ram { .. } => store(words, inputs),
        _ => unreachable!(),
    }
}

/// The word at an output, from what the part holds and its inputs.
///
/// The form's numbers and its trigger are in their ranges, the state has the form's shape, there is a word for each
/// input, in the port's width, and the form has such an output.
pub fn out(form: &StateForm, state: &State, inputs: &[Word], output: u32) -> Word
    requires form { IsForm form.now }
    requires shape { HasShape form.now state.now }
    requires inputs { FitsInputs form.now inputs.now }
    requires output { output < length (output_widths form.now) }
    ensures word { slice_get (outputs form.now (words_of state.now) inputs.now) output ≡ Some result }
    ensures width { slice_get (output_widths form.now) output ≡ Some (length result) }
{
    match state {
        State::None => read_contents(form, inputs),
        State::One(word) => word_out(form, word, inputs, output),
        State::Many(words) => words_out(form, words.as_slice(), inputs, output),
    }
}

fn read_contents(form: &StateForm, inputs: &[Word]) -> Word
    requires form { IsForm form.now }
    requires shape { HasShape form.now NoWord }
    requires inputs { FitsInputs form.now inputs.now }
    ensures word { outputs form.now [] inputs.now ≡ result ∷ [] }
    ensures width { output_widths form.now ≡ length result ∷ [] }
{
    match form {
        StateForm::Rom { width, words, .. } => {
            rom_read(*width, words.as_slice(), defined_number(&inputs[0]))
        }
        _ => unreachable!(),
    }
}

fn word_out(form: &StateForm, held: &Word, inputs: &[Word], output: u32) -> Word
    requires form { IsForm form.now }
    requires shape { HasShape form.now (OneWord held.now) }
    requires inputs { FitsInputs form.now inputs.now }
    requires output { output < length (output_widths form.now) }
    ensures word { slice_get (outputs form.now (held.now ∷ []) inputs.now) output ≡ Some result }
    ensures width { slice_get (output_widths form.now) output ≡ Some (length result) }
{
    match form {
        StateForm::Register { .. } => *held,
        StateForm::Flip { .. } | StateForm::Counter { .. } if output == 0 => *held,
        StateForm::Flip { .. } => inverted(held),
        StateForm::Counter { max, .. } => {
            Word::fill(1, carry(*max, bit_at(inputs, 2), defined_number(held)))
        }
        StateForm::Shift { .. } | StateForm::Rom { .. } | StateForm::Ram { .. } => unreachable!(),
    }
}

fn words_out(form: &StateForm, words: &[Word], inputs: &[Word], output: u32) -> Word
    requires form { IsForm form.now }
    requires shape { HasShape form.now (ManyWords words.now) }
    requires inputs { FitsInputs form.now inputs.now }
    requires output { output < length (output_widths form.now) }
    ensures word { slice_get (outputs form.now words.now inputs.now) output ≡ Some result }
    ensures width { slice_get (output_widths form.now) output ≡ Some (length result) }
{
    match form {
        StateForm::Shift { parallel: true, .. } => words[output as usize],
        StateForm::Shift { length, .. } => words[*length as usize - 1],
        StateForm::Ram { width, .. } => ram_read(*width, words, defined_number(&inputs[0])),
        _ => unreachable!(),
    }
}
