//! The module that a text is read as.
#![tactic(auto)]

mod class;
mod decl_reading;
mod expr_reading;
mod fault;
mod init_reading;
mod law;
mod module_reading;
mod read;
mod reader;
mod spelling;

pub use fault::ReadFault;
pub use law::one_module;
pub use read::{GREATEST_DEPTH, GREATEST_LENGTH, read_module};
