//! Expressions as text, in the printed layout.

ghost use Rattle.std.specs.Prelude.{◌≡◌, ◌++◌, OnOk, codes, IsTrue, [], ◌∷◌};
ghost use Rattle.std.specs.Fmt.{decimal};
ghost use Rattle.std.specs.List.{list_all};
ghost use Rattle.lg_vtree.specs.Token.{is_name, is_number};
ghost use Rattle.lg_vtree.specs.Printed.{constant_text, expr_text};
ghost use Rattle.lg_vtree.specs.Grammar.{Sized, is_token, expr_tokens};

use lg_vtree::{Constant, Expr, Name};
use std::alloc::{AllocError, Global};

/// Adds the text of an expression.
#[tactic(auto, using(crate::proofs::Parts::const_from_parts, crate::proofs::Parts::whole_from_parts, crate::proofs::Parts::bit_from_parts, crate::proofs::Parts::part_from_parts, crate::proofs::Parts::item_from_parts, crate::proofs::Parts::join_from_parts, crate::proofs::Parts::not_from_parts, crate::proofs::Parts::binary_from_parts, crate::proofs::Parts::choice_from_parts))]
pub fn put_expr(alloc: Global, out: &mut Vec<u8>, expr: &Expr) -> Result<(), AllocError>
    ensures text { OnOk result (out.new.items ≡ out.old.items ++ expr_text expr.now) }
    ensures tokens { OnOk result (IsTrue (list_all is_token (expr_tokens expr.now))) }
{
    match expr {
        Expr::Const(constant) => put_constant(alloc, out, *constant),
        Expr::Whole(name) => put(out, name.as_str()),
        Expr::Bit(name, index) => {
            put_open(out, name)?;
            put_number(alloc, out, *index)?;
            put(out, "]")
        }
        Expr::Part(name, high, low) => {
            put_open(out, name)?;
            put_number(alloc, out, *high)?;
            put(out, ":")?;
            put_number(alloc, out, *low)?;
            put(out, "]")
        }
        Expr::Item(name, address) => {
            put_open(out, name)?;
            put_expr(alloc, out, address.get())?;
            put(out, "]")
        }
        Expr::Join(first, second, more) => {
            put(out, "{")?;
            put_expr(alloc, out, first.get())?;
            put(out, ", ")?;
            put_expr(alloc, out, second.get())?;
            for other in more.as_slice() {
                put(out, ", ")?;
                put_expr(alloc, out, other)?;
            }
            put(out, "}")
        }
        Expr::Not(inner) => {
            put(out, "(~")?;
            put_expr(alloc, out, inner.get())?;
            put(out, ")")
        }
        Expr::Binary(left, operator, right) => {
            put(out, "(")?;
            put_expr(alloc, out, left.get())?;
            put(out, " ")?;
            put(out, operator.as_str())?;
            put(out, " ")?;
            put_expr(alloc, out, right.get())?;
            put(out, ")")
        }
        Expr::Choice(condition, yes, no) => {
            put(out, "(")?;
            put_expr(alloc, out, condition.get())?;
            put(out, " ? ")?;
            put_expr(alloc, out, yes.get())?;
            put(out, " : ")?;
            put_expr(alloc, out, no.get())?;
            put(out, ")")
        }
    }
}

fn put_open(out: &mut Vec<u8>, name: &Name) -> Result<(), AllocError>
    ensures text { OnOk result (out.new.items ≡ out.old.items ++ name.now ++ codes "[") }
    ensures is_name { OnOk result (IsTrue (is_name name.now)) }
{
    put(out, name.as_str())?;
    put(out, "[")
}

/// Adds a constant.
pub fn put_constant(alloc: Global, out: &mut Vec<u8>, constant: Constant) -> Result<(), AllocError>
    ensures text { OnOk result (out.new.items ≡ out.old.items ++ constant_text constant) }
    ensures tokens { OnOk result (IsTrue (list_all is_token (Sized constant ∷ []))) }
{
    put_number(alloc, out, constant.width)?;
    put(out, "'d")?;
    put_number(alloc, out, constant.value)
}

/// Adds a number in decimal digits.
pub fn put_number(alloc: Global, out: &mut Vec<u8>, number: u128) -> Result<(), AllocError>
    ensures text { OnOk result (out.new.items ≡ out.old.items ++ decimal number) }
    ensures is_number { OnOk result (IsTrue (is_number number)) }
{
    put(out, number.to_string(alloc)?.as_str())
}

/// Adds a text.
pub fn put(out: &mut Vec<u8>, text: &str) -> Result<(), AllocError>
    ensures { OnOk result (out.new.items ≡ out.old.items ++ text.now) }
{
    out.extend_from_slice(text.as_bytes())
}
