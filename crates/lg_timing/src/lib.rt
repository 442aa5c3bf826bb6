//! Circuits in time: what each net carries at each instant, and when a circuit settles.
#![tactic(auto)]

mod law;
mod phase;
mod settling;
mod staying_law;

pub use law::{
    configurations_go_on, evaluations_are_counted, later_stimuli_change_nothing,
    not_gate_answers_after_one_instant, rows_have_one_table, settling_is_decided,
};
pub use phase::Phase;
pub use settling::Settling;
pub use staying_law::{
    configurations_settle_or_oscillate, configurations_tell_settling,
    later_configurations_tell_the_same, rows_go_from_one_configuration_to_the_next,
    stimuli_are_put_on_what_stood, stimuli_lead_on,
};
