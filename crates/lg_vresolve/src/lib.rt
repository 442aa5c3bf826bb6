//! The number of an expression, and expressions turned into terms over indexes.
#![tactic(auto)]

mod resolve;

pub use resolve::{Resolved, Resolver};
