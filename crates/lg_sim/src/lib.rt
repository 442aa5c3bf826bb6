//! Netlists in time: the circuit of `lg_timing` that a netlist is, and how soon it settles.
#![tactic(auto)]

mod law;

pub use law::{accepted_netlists_have_one_longest_delay, accepted_netlists_settle};
