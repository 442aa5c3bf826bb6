//! Pending changes of outputs, in the order of their instants.
#![tactic(auto)]

mod buckets;
mod levels;
mod memory;
mod numbers;
mod outputs;
mod queue;
mod row;

pub use crate::memory::Memory;
pub use crate::queue::Queue;
