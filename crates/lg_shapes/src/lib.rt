//! What a part is by its attributes, and what it does with its words.
#![tactic(auto)]

mod arithmetic;
mod gates;
mod inputs;
mod law;
mod plexers;
mod reads;
mod shape;
mod wiring;

pub use arithmetic::{Arithmetic, Mode};
pub use gates::{ControlSide, Gate};
pub use law::{
    a_repeated_step_changes_nothing, a_step_without_its_edge_changes_nothing,
    clear_and_preset_act_at_every_step, defined_gives_defined, outputs_read_few_inputs,
    widths_stay,
};
pub use plexers::{Disabled, Plexer, SelectCorner};
pub use shape::Shape;
pub use wiring::{Extension, Wiring};
