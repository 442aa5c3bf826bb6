//! Sets of names, each of which stands once.
#![tactic(auto)]

mod name_set;

pub use name_set::NameSet;
