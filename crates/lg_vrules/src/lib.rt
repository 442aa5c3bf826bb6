//! The rules of valid modules, and how the names of a module depend on one another.
#![tactic(auto)]

mod addressing;
mod broken;
mod depends;
mod divisors;
mod fault;
mod fitting;
mod indexes;
mod names;
mod once;
mod rules;
mod uses;
mod widths;

pub use broken::checked_names;
pub use depends::{Dependence, assign_order};
pub use fault::RuleFault;
pub use indexes::Indexes;
pub use names::{NameIndex, Sort, Thing, sort_of_port, thing_of_decl};
pub use once::{filled_names, stored_names};
pub use rules::{fills, stmts, words};
pub use widths::operator_width;
