//! Expressions of the subset.

ghost use Rattle.std.specs.Prelude.{◌≡◌};
ghost use Rattle.lg_vtree.specs.Printed.{operator_text};

use crate::name::Name;
use sqlite_items::{Boxed, Items};

/// `width'dvalue`, one token.
#[derive(Clone, Copy, Debug, PartialEq, Eq)]
pub struct Constant {
    pub width: u128,
    pub value: u128,
}

/// An operator between two expressions.
#[derive(Clone, Copy, Debug, PartialEq, Eq)]
pub enum Operator {
    And,
    Or,
    Xor,
    Add,
    Subtract,
    Multiply,
    Divide,
    Remainder,
    Equal,
    Less,
    ShiftLeft,
    ShiftRight,
}

impl Operator {
    /// Each operator.
    pub const ALL: [Operator; 12] = [
        Operator::And,
        Operator::Or,
        Operator::Xor,
        Operator::Add,
        Operator::Subtract,
        Operator::Multiply,
        Operator::Divide,
        Operator::Remainder,
        Operator::Equal,
        Operator::Less,
        Operator::ShiftLeft,
        Operator::ShiftRight,
    ];

    /// Its spelling.
    pub fn as_str(self) -> &'static str
        ensures { result.now ≡ operator_text self }
    {
        match self {
            Operator::And => "&",
            Operator::Or => "|",
            Operator::Xor => "^",
            Operator::Add => "+",
            Operator::Subtract => "-",
            Operator::Multiply => "*",
            Operator::Divide => "/",
            Operator::Remainder => "%",
            Operator::Equal => "==",
            Operator::Less => "<",
            Operator::ShiftLeft => "<<",
            Operator::ShiftRight => ">>",
        }
    }
}

/// An expression.
#[derive(Debug, Drop)]
pub enum Expr {
    /// `8'd5`
    Const(Constant),
    /// `name`
    Whole(Name),
    /// `name[index]`
    Bit(Name, u128),
    /// `name[high:low]`
    Part(Name, u128, u128),
    /// `name[e]`, a word of a memory.
    Item(Name, Boxed<Expr>),
    /// `{e, e}`, and more after the two.
    Join(Boxed<Expr>, Boxed<Expr>, Items<Expr>),
    /// `(~e)`
    Not(Boxed<Expr>),
    /// `(e op e)`
    Binary(Boxed<Expr>, Operator, Boxed<Expr>),
    /// `(e ? e : e)`
    Choice(Boxed<Expr>, Boxed<Expr>, Boxed<Expr>),
}
