//! The top call: words, files and sinks in, a text or one line out, and a status.
#![tactic(auto)]

mod command;
mod contents;
mod export;
mod law;
mod line;
mod one_sheet;
mod reason;
mod status;
mod stop;
mod top_call;
mod vrun;
mod words;

pub use law::{defined_rows_have_a_due_text, exported_modules_give_static_rows, one_is_due};
pub use one_sheet::EarlyFault;
pub use status::Status;
pub use stop::{Refusal, Stop, Unmet};
pub use top_call::run;
pub use vrun::{MODULE_LENGTH, ROWS_LENGTH};
