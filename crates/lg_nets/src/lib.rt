//! The nets of a sheet: which ports its wires join.
#![tactic(auto)]

mod components;
mod law;
mod nets;
mod rays;
mod rows;

pub use law::sheets_have_labels;
pub use nets::{SheetNets, sheet_nets};
