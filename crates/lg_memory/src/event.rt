//! What a step does to a part: clock, clear and preset.

ghost use Rattle.std.specs.Prelude.{◌≡◌, ◌≤◌, length};
ghost use Rattle.lg_memory.specs.Inputs.{word_at};
ghost use Rattle.lg_memory.specs.Shape.{FitsInputs};
ghost use Rattle.lg_memory.specs.Controls.{triggers, data_inputs, clock_of, clear_of, preset_of, is_one, is_triggered, event};

use crate::form::{FlipKind, StateForm, Trigger};
use crate::inputs::bit_at;
use lg_value::{Bit, Word};

// What a step does to a part.
#[derive(Clone, Copy, Debug, PartialEq, Eq)]
pub enum Event {
    // Every word becomes 0.
    Clear,
    // The bit becomes 1.
    Preset,
    // The clock makes the part store.
    Triggered,
    // Nothing happens.
    Rest,
}

// What the step between two lists of inputs does to a part of this form.
pub fn event_between(form: &StateForm, old: &[Word], new: &[Word]) -> Event
    requires old { FitsInputs form.now old.now }
    requires new { FitsInputs form.now new.now }
    ensures { result ≡ event form.now old.now new.now }
{
    let clear = is_clear(form, new);
    let preset = is_preset(form, new);
    let triggered = is_triggered(form, old, new);
    match (clear, preset, triggered) {
        (true, _, _) => Event::Clear,
        (false, true, _) => Event::Preset,
        (false, false, true) => Event::Triggered,
        (false, false, false) => Event::Rest,
    }
}

fn is_clear(form: &StateForm, inputs: &[Word]) -> bool
    requires { FitsInputs form.now inputs.now }
    ensures { result ≡ is_one (clear_of form.now) inputs.now }
{
    match form {
        StateForm::Flip { kind, .. } => bit_at(inputs, data_inputs(*kind) + 2) == Bit::One,
        StateForm::Register { .. } | StateForm::Shift { .. } => bit_at(inputs, 3) == Bit::One,
        StateForm::Counter { .. } => bit_at(inputs, 5) == Bit::One,
        StateForm::Rom { .. } | StateForm::Ram { .. } => false,
    }
}

fn is_preset(form: &StateForm, inputs: &[Word]) -> bool
    requires { FitsInputs form.now inputs.now }
    ensures { result ≡ is_one (preset_of form.now) inputs.now }
{
    match form {
        StateForm::Flip { kind, .. } => bit_at(inputs, data_inputs(*kind) + 1) == Bit::One,
        _ => false,
    }
}

fn is_triggered(form: &StateForm, old: &[Word], new: &[Word]) -> bool
    requires old { FitsInputs form.now old.now }
    requires new { FitsInputs form.now new.now }
    ensures { result ≡ is_triggered (clock_of form.now) old.now new.now }
{
    match form {
        StateForm::Flip { kind, trigger } => { triggers_at(*trigger, data_inputs(*kind), old, new) }
        StateForm::Register { trigger, .. } | StateForm::Shift { trigger, .. } => {
            triggers_at(*trigger, 2, old, new)
        }
        StateForm::Counter { trigger, .. } => triggers_at(*trigger, 4, old, new),
        StateForm::Ram { trigger, .. } => triggers_at(*trigger, 3, old, new),
        StateForm::Rom { .. } => false,
    }
}

fn triggers_at(trigger: Trigger, clock: usize, old: &[Word], new: &[Word]) -> bool
    requires old { 1 ≤ length (word_at old.now clock) }
    requires new { 1 ≤ length (word_at new.now clock) }
    ensures { result ≡ is_triggered (Some (trigger, clock)) old.now new.now }
{
    triggers(trigger, bit_at(old, clock), bit_at(new, clock))
}

fn triggers(trigger: Trigger, before: Bit, now: Bit) -> bool
    ensures { result ≡ triggers trigger before now }
{
    match trigger {
        Trigger::Rising => matches!((before, now), (Bit::Zero, Bit::One)),
        Trigger::Falling => matches!((before, now), (Bit::One, Bit::Zero)),
        Trigger::High => now == Bit::One,
        Trigger::Low => now == Bit::Zero,
    }
}

// How many data inputs stand before the clock of a flip-flop.
fn data_inputs(kind: FlipKind) -> usize
    ensures { result ≡ data_inputs kind }
{
    match kind {
        FlipKind::D | FlipKind::T => 1,
        FlipKind::Jk | FlipKind::Sr => 2,
    }
}
