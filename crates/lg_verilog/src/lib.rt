//! Modules of a small subset of Verilog: as trees, printed and read. Each stands in a crate of its own; this one hands them on.
#![tactic(auto)]

pub use lg_vprint::{Memory, print, printed_text};
pub use lg_vread::{GREATEST_DEPTH, GREATEST_LENGTH, ReadFault, one_module, read_module};
pub use lg_vtree::{
    Assign, Constant, Decl, Direction, Edge, EdgeKind, Expr, Fill, Init, Module, Name, Operator,
    Port, Range, Stmt, Word,
};
