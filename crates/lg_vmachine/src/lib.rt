//! Equations over indexes, ready to be computed, and what an edge stores.
#![tactic(auto)]

mod arithmetic;
mod machine;
mod regs;
mod term;

pub use machine::{Machine, Write, put_word};
pub use regs::Regs;
pub use term::Term;
