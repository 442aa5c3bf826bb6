//! The text of a module, in the layout that is printed.
#![tactic(auto)]

mod expr_printing;
mod law;
mod printing;

pub use law::printed_text;
pub use lg_vtree::Memory;
pub use printing::print;
