//! Rows of modules: a vector bound to the inputs of a module, and the text of its outputs.
#![tactic(auto)]

mod fault;
mod inputs;
mod law;
mod pins;
mod reading;
mod rows;
mod text;

pub use fault::{ModuleFault, RowsFault};
pub use law::{
    defined_rows_have_outputs, modules_have_one_answer, rows_have_one_answer,
    texts_are_modules_or_not, texts_are_rows_or_not,
};
pub use reading::valid_module;
pub use rows::rows_text;
