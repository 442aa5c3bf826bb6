//! The module of a netlist: each part has its own wires and its own equations.
#![tactic(auto)]

mod bits;
mod law;
mod layout;
mod names;
mod parts;
mod ranges;

pub use law::accepted_netlists_have_agreeing_modules;
pub use layout::export;
