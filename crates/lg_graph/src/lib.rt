//! Directed graphs: an order of the nodes in which arrows lead back, and which nodes are on cycles.
#![tactic(auto)]

mod groups;
mod search;
mod sorting;

pub use sorting::{Sorted, sort};
