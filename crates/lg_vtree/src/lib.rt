//! Modules of a small subset of Verilog, as trees.
#![tactic(auto)]

mod expr;
mod fault;
mod module;
mod name;
mod range;

pub use expr::{Constant, Expr, Operator};
pub use fault::Memory;
pub use module::{Assign, Decl, Direction, Edge, EdgeKind, Fill, Init, Module, Port, Stmt, Word};
pub use name::Name;
pub use range::Range;
