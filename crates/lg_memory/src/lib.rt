//! Parts with a state: flip-flops, registers, counters, shift registers and memories of four-valued words.
#![tactic(auto)]

mod counter;
mod event;
mod fault;
mod flip_flop;
mod form;
mod image;
mod inputs;
mod law;
mod number;
mod register;
mod run;
mod scan;
mod shift_register;
mod state;
mod storage;
mod transition;

pub use fault::{ImageFault, Memory};
pub use form::{FlipKind, Goal, StateForm, Trigger};
pub use image::{are_words, read_image, read_words};
pub use law::{
    a_repeated_step_changes_nothing, a_step_without_its_edge_changes_nothing,
    clear_and_preset_act_at_every_step, defined_inputs_give_defined_words, outputs_read_few_inputs,
    widths_stay, words_tell_the_state,
};
pub use number::read_number;
pub use state::{State, renew, start};
pub use transition::{out, step};
