//! What an expression divides by.

ghost use Rattle.std.specs.Prelude.{◌≡◌, ◌||◌, ◌&&◌, not, map};
ghost use Rattle.std.specs.List.{list_all};
ghost use Rattle.lg_vtree.specs.declared.expr.Expr.{out-Expr};
ghost use Rattle.lg_vrules.specs.Rules.{same, same_each, is_number, is_equality, is_zero_test, is_divisor, is_division, divides_safely, stmt_divides_safely, are_divided_safely};
ghost use Rattle.lg_vrules.specs.Inside.{holds_inside};

use crate::rules::stmts;
use lg_vtree::{Assign, Expr, Module, Operator, Stmt};

/// Whether each division in a module is by a divisor that is never 0.
pub fn are_divided_safely(module: &Module) -> bool
    ensures { result ≡ are_divided_safely «module».now }
{
    assigns_divide_safely(module.assigns.as_slice()) && stmts_divide_safely(stmts(module))
}

fn assigns_divide_safely(assigns: &[Assign]) -> bool
    ensures { result ≡ list_all (λ assign. holds_inside divides_safely assign.value) assigns.now }
{
    assigns.iter().all(|assign| divides_safely(&assign.value))
}

fn stmts_divide_safely(stmts: &[Stmt]) -> bool
    ensures { result ≡ list_all stmt_divides_safely stmts.now }
{
    stmts.iter().all(|stmt| stmt_divides_safely(stmt))
}

fn stmt_divides_safely(stmt: &Stmt) -> bool
    ensures { result ≡ stmt_divides_safely stmt.now }
{
    match stmt {
        Stmt::Store { value, .. } => divides_safely(value),
        Stmt::StoreIf {
            condition,
            address,
            value,
            ..
        } => divides_safely(condition) & (divides_safely(address) & divides_safely(value)),
    }
}

// Whether two expressions are the same.
#[cycle(same)]
fn same(expr: &Expr, other: &Expr) -> bool
    ensures { result ≡ same expr.now other.now }
{
    match (expr, other) {
        (Expr::Const(a), Expr::Const(b)) => a.width == b.width && a.value == b.value,
        (Expr::Whole(a), Expr::Whole(b)) => a.as_str() == b.as_str(),
        (Expr::Bit(a, index), Expr::Bit(b, at)) => a.as_str() == b.as_str() && index == at,
        (Expr::Part(a, high, low), Expr::Part(b, top, bottom)) => {
            a.as_str() == b.as_str() && high == top && low == bottom
        }
        (Expr::Item(a, address), Expr::Item(b, at)) => {
            a.as_str() == b.as_str() && same(address.get(), at.get())
        }
        (Expr::Join(a, b, more), Expr::Join(x, y, others)) => {
            same(a.get(), x.get())
                && same(b.get(), y.get())
                && same_each(more.as_slice(), others.as_slice())
        }
        (Expr::Not(a), Expr::Not(b)) => same(a.get(), b.get()),
        (Expr::Binary(a, operator, b), Expr::Binary(x, other, y)) => {
            same(a.get(), x.get()) && operator.as_str() == other.as_str() && same(b.get(), y.get())
        }
        (Expr::Choice(c, a, b), Expr::Choice(d, x, y)) => {
            same(c.get(), d.get()) && same(a.get(), x.get()) && same(b.get(), y.get())
        }
        _ => false,
    }
}

#[cycle(same)]
fn same_each(exprs: &[Expr], others: &[Expr]) -> bool
    ensures { result ≡ same_each (map same exprs.now) others.now }
{
    if exprs.len() != others.len() {
        return false;
    }
    for (at, expr) in exprs.iter().enumerate() {
        if !same(expr, &others[at]) {
            return false;
        }
    }
    true
}

// Whether each division in an expression is by a divisor that is never 0.
#[cycle(divisors)]
#[tactic(auto, using(crate::proofs::InsideLemmas::rebuilt))]
fn divides_safely(expr: &Expr) -> bool
    ensures { result ≡ holds_inside divides_safely expr.now }
{
    match expr {
        Expr::Const(_) | Expr::Whole(_) | Expr::Bit(_, _) | Expr::Part(_, _, _) => true,
        Expr::Item(_, address) => divides_safely(address.get()),
        Expr::Join(first, second, more) => {
            all_divide_safely(more.as_slice())
                & (divides_safely(first.get()) & divides_safely(second.get()))
        }
        Expr::Not(inner) => divides_safely(inner.get()),
        Expr::Binary(left, operator, right) => {
            is_safe(*operator, right.get())
                & (divides_safely(left.get()) & divides_safely(right.get()))
        }
        Expr::Choice(condition, first, second) => {
            divides_safely(condition.get())
                & (divides_safely(first.get()) & divides_safely(second.get()))
        }
    }
}

#[cycle(divisors)]
fn all_divide_safely(exprs: &[Expr]) -> bool
    ensures { result ≡ list_all (λ safe. safe) (map (holds_inside divides_safely) exprs.now) }
{
    for expr in exprs {
        if !divides_safely(expr) {
            return false;
        }
    }
    true
}

// Whether an operation is no division, or one by a divisor that is never 0.
fn is_safe(operator: Operator, right: &Expr) -> bool
    ensures { result ≡ (not (is_division operator) || is_divisor (out-Expr right.now)) }
{
    !is_division(operator) || is_divisor(right)
}

fn is_division(operator: Operator) -> bool
    ensures { result ≡ is_division operator }
{
    matches!(operator, Operator::Divide | Operator::Remainder)
}

// Whether an expression is a constant above 0, or itself 1 where it would be 0.
fn is_divisor(expr: &Expr) -> bool
    ensures { result ≡ is_divisor (out-Expr expr.now) }
{
    match expr {
        Expr::Const(constant) => constant.value > 0,
        Expr::Choice(condition, one, other) => {
            is_zero_test(other.get(), condition.get()) && is_number(1, one.get())
        }
        _ => false,
    }
}

// Whether a condition compares an expression with 0.
fn is_zero_test(expr: &Expr, condition: &Expr) -> bool
    ensures { result ≡ is_zero_test expr.now (out-Expr condition.now) }
{
    match condition {
        Expr::Binary(left, Operator::Equal, right) => {
            is_number(0, right.get()) && same(left.get(), expr)
        }
        _ => false,
    }
}

// Whether an expression is a constant of this value.
fn is_number(value: u128, expr: &Expr) -> bool
    ensures { result ≡ is_number value (out-Expr expr.now) }
{
    match expr {
        Expr::Const(constant) => constant.value == value,
        _ => false,
    }
}
