//! Which inputs outputs read at once, what can be exported, and clock, clear and preset.

ghost use Rattle.std.specs.Prelude.{◌≡◌, ◌≤◌};
ghost use Rattle.lg_memory.specs.Reads.{reads as memory_reads};
ghost use Rattle.lg_memory.specs.Controls.{clock_of as memory_clock, clear_of as memory_clear, preset_of as memory_preset, data_inputs};
ghost use Rattle.lg_shapes.specs.Reads.{reads, wiring_reads, is_exportable, is_gate_exportable, is_plexer_exportable, shows_both, is_driven, clock_of, clear_of, preset_of};

use crate::gates::Gate;
use crate::plexers::{Disabled, Plexer};
use crate::shape::Shape;
use crate::wiring::Wiring;
use lg_gates::OutForm;
use lg_memory::{FlipKind, StateForm, Trigger};

impl Shape {
    /// Whether an output reads an input at once, without a step: of a state kind the carry of a counter reads `ud`, what a
    /// memory reads out goes by its address, and no other output reads any; a bit extender reads `ext` where its output is wider;
    /// all others read every input.
    pub fn reads(&self, output: u32, input: u32) -> bool
        ensures { result ≡ reads self.now output input }
    {
        match self {
            Shape::Wiring(part) => wiring_reads(part, input),
            Shape::Memory(form) => memory_reads(form, output, input),
            Shape::Gate(_) | Shape::Plexer(_) | Shape::Arithmetic(_) => true,
        }
    }

    /// Whether nothing in it floats, without which no module can be written for it.
    pub fn exportable(&self) -> bool
        ensures { result ≡ is_exportable self.now }
    {
        match self {
            Shape::Gate(gate) => is_gate_exportable(gate),
            Shape::Plexer(plexer) => is_plexer_exportable(plexer),
            Shape::Wiring(_) | Shape::Arithmetic(_) | Shape::Memory(_) => true,
        }
    }

    /// When its clock makes it store, and which input the clock is.
    pub fn clock(&self) -> Option<(Trigger, u32)>
        ensures { result ≡ clock_of self.now }
    {
        match self {
            Shape::Memory(form) => memory_clock(form),
            _ => None,
        }
    }

    /// Which input clears it.
    pub fn clear(&self) -> Option<u32>
        ensures { result ≡ clear_of self.now }
    {
        match self {
            Shape::Memory(form) => memory_clear(form),
            _ => None,
        }
    }

    /// Which input sets it.
    pub fn preset(&self) -> Option<u32>
        ensures { result ≡ preset_of self.now }
    {
        match self {
            Shape::Memory(StateForm::Flip { kind, .. }) => Some(data_inputs(*kind) + 1),
            _ => None,
        }
    }
}

fn wiring_reads(part: &Wiring, input: u32) -> bool
    ensures { result ≡ wiring_reads part.now input }
{
    match part {
        Wiring::BitExtender {
            in_width,
            out_width,
            ..
        } => input == 0 || in_width < out_width,
        _ => true,
    }
}

fn memory_reads(form: &StateForm, output: u32, input: u32) -> bool
    ensures { result ≡ memory_reads form.now output input }
{
    match form {
        StateForm::Counter { .. } => output == 1 && input == 2,
        StateForm::Rom { .. } | StateForm::Ram { .. } => input == 0,
        StateForm::Flip { .. } | StateForm::Register { .. } | StateForm::Shift { .. } => false,
    }
}

fn is_gate_exportable(gate: &Gate) -> bool
    ensures { result ≡ is_gate_exportable gate.now }
{
    match gate {
        Gate::Not { out, .. } | Gate::Buffer { out, .. } | Gate::Logic { out, .. } => {
            shows_both(*out)
        }
        Gate::ControlledBuffer { .. } | Gate::ControlledInverter { .. } => false,
    }
}

// Whether an output form shows a 0 and a 1 as they are.
fn shows_both(out: OutForm) -> bool
    ensures { result ≡ shows_both out }
{
    match out {
        OutForm::ZeroOne => true,
        OutForm::ZeroFloat | OutForm::FloatOne => false,
    }
}

fn is_plexer_exportable(plexer: &Plexer) -> bool
    ensures { result ≡ is_plexer_exportable plexer.now }
{
    match plexer {
        Plexer::Multiplexer {
            enable,
            disabled,
            ..
        } => !*enable || is_driven(*disabled),
        Plexer::Demultiplexer {
            enable,
            disabled,
            tristate,
            ..
        }
        | Plexer::Decoder {
            enable,
            disabled,
            tristate,
            ..
        } => (!*enable || is_driven(*disabled)) && !*tristate,
        Plexer::PriorityEncoder { disabled, .. } => is_driven(*disabled),
        Plexer::BitSelector { .. } => true,
    }
}

// Whether an output that is not enabled is driven.
fn is_driven(disabled: Disabled) -> bool
    ensures { result ≡ is_driven disabled }
{
    match disabled {
        Disabled::Float => false,
        Disabled::Zero => true,
    }
}

fn memory_clock(form: &StateForm) -> Option<(Trigger, u32)>
    ensures { result ≡ memory_clock form.now }
{
    match form {
        StateForm::Flip { kind, trigger } => Some((*trigger, data_inputs(*kind))),
        StateForm::Register { trigger, .. } | StateForm::Shift { trigger, .. } => {
            Some((*trigger, 2))
        }
        StateForm::Counter { trigger, .. } => Some((*trigger, 4)),
        StateForm::Ram { trigger, .. } => Some((*trigger, 3)),
        StateForm::Rom { .. } => None,
    }
}

fn memory_clear(form: &StateForm) -> Option<u32>
    ensures { result ≡ memory_clear form.now }
{
    match form {
        StateForm::Flip { kind, .. } => Some(data_inputs(*kind) + 2),
        StateForm::Register { .. } | StateForm::Shift { .. } => Some(3),
        StateForm::Counter { .. } => Some(5),
        StateForm::Rom { .. } | StateForm::Ram { .. } => None,
    }
}

// How many data inputs a flip-flop has.
fn data_inputs(kind: FlipKind) -> u32
    ensures inputs { result ≡ data_inputs kind }
    ensures few { result ≤ 2 }
{
    match kind {
        FlipKind::D | FlipKind::T => 1,
        FlipKind::Jk | FlipKind::Sr => 2,
    }
}
