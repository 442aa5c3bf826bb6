//! The meaning of modules: which are valid, the valuations that solve their equations, and their rows.
#![tactic(auto)]

mod compiling;
mod kept_names;
mod ports;
mod rows;
mod starting;
mod stores;
mod valid_module;
mod validity;

pub use lg_vmachine::Regs;
pub use ports::PortLine;
pub use valid_module::Valid;
pub use validity::{MeanFault, valid};
