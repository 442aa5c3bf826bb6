//! Modules as trees: one type per form of the subset's grammar.

use crate::expr::{Constant, Expr};
use crate::name::Name;
use crate::range::Range;
use sqlite_items::Items;

/// Which way a port goes.
#[derive(Clone, Copy, Debug, PartialEq, Eq)]
pub enum Direction {
    Input,
    Output,
}

/// A port of a module: `input wire [range] name`.
#[derive(Debug, Drop)]
pub struct Port {
    pub direction: Direction,
    pub range: Range,
    pub name: Name,
}

/// What a module declares inside.
#[derive(Debug, Drop)]
pub enum Decl {
    /// `wire [range] name;`
    Wire {
        range: Range,
        name: Name,
    },
    /// `reg [range] name = start;`
    Reg {
        range: Range,
        name: Name,
        start: Constant,
    },
    /// `reg [range] name [0:last];`, words from address 0 to `last`.
    Memory {
        range: Range,
        name: Name,
        last: u128,
    },
}

/// `for (k = 0; k < count; k = k + 1) name[k] = value;`
#[derive(Debug, Drop)]
pub struct Fill {
    pub name: Name,
    pub count: u128,
    pub value: Constant,
}

/// `name[address] = value;`
#[derive(Debug, Drop)]
pub struct Word {
    pub name: Name,
    pub address: u128,
    pub value: Constant,
}

/// What the memories hold at the start: first the fills, then the words.
#[derive(Debug, Drop)]
pub struct Init {
    pub fills: Items<Fill>,
    pub words: Items<Word>,
}

/// `assign name = value;`
#[derive(Debug, Drop)]
pub struct Assign {
    pub name: Name,
    pub value: Expr,
}

/// At which change of `clk` the statements act.
#[derive(Clone, Copy, Debug, PartialEq, Eq)]
pub enum EdgeKind {
    /// From 0 to 1: `posedge`.
    Rising,
    /// From 1 to 0: `negedge`.
    Falling,
}

/// What is done at the edge.
#[derive(Debug, Drop)]
pub enum Stmt {
    /// `name <= value;`, for a reg.
    Store {
        name: Name,
        value: Expr,
    },
    /// `if (condition) name[address] <= value;`, for a memory.
    StoreIf {
        condition: Expr,
        name: Name,
        address: Expr,
        value: Expr,
    },
}

/// `always @(posedge clk) begin .. end`, or with `negedge`.
#[derive(Debug, Drop)]
pub struct Edge {
    pub kind: EdgeKind,
    pub stmts: Items<Stmt>,
}

/// A module of the subset. An absent init or edge is another module than an empty one.
#[derive(Debug, Drop)]
pub struct Module {
    pub name: Name,
    pub ports: Items<Port>,
    pub decls: Items<Decl>,
    pub init: Option<Init>,
    pub assigns: Items<Assign>,
    pub edge: Option<Edge>,
}
