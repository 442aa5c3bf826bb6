//! Widths of expressions, and indexes that lie within them.

ghost use Rattle.std.specs.Prelude.{◌≡◌, ◌≤◌, ◌*◌, ◌^◌, nat_lt, length, map, IfSome};
ghost use Rattle.lg_vrules.specs.Known.{width_under, AreNarrow};
ghost use Rattle.lg_vrules.specs.Rules.{operator_width, constant_fits, constant_width, bit_width, part_width, at_most_128, is_shift, binary_width, choice_width, sum_of, expr_width};

use crate::names::NameIndex;
use lg_vtree::{Constant, Expr, Name, Operator};

/// How many bits a wire, a register or an expression has at most.
pub const GREATEST_WIDTH: u128 = 128;

impl NameIndex {
    /// The width of an expression in which all widths and indexes fit; none of another.
    #[cycle(widths)]
    pub fn width(&self, expr: &Expr) -> Option<u128>
        requires { AreNarrow self.now }
        ensures value { result ≡ expr_width (width_under self.now) expr.now }
        ensures narrow { IfSome result (λ width. width ≤ 128) }
    {
        match expr {
            Expr::Const(constant) => constant_width(*constant),
            Expr::Whole(name) => Some(self.width_of(name)),
            Expr::Bit(name, index) => bit_width(self.width_of(name), *index),
            Expr::Part(name, high, low) => part_width(self.width_of(name), *high, *low),
            Expr::Item(name, address) => {
                self.width(address.get())?;
                Some(self.width_of(name))
            }
            Expr::Join(first, second, more) => {
                let rest = self.sum_of_widths(more.as_slice())?;
                let first = self.width(first.get())?;
                let second = self.width(second.get())?;
                at_most_128(first + (second + rest))
            }
            Expr::Not(inner) => self.width(inner.get()),
            Expr::Binary(left, operator, right) => {
                let left = self.width(left.get())?;
                binary_width(*operator, left, self.width(right.get())?)
            }
            Expr::Choice(condition, first, second) => {
                let condition = self.width(condition.get())?;
                let first = self.width(first.get())?;
                choice_width(condition, first, self.width(second.get())?)
            }
        }
    }

    #[cycle(widths)]
    fn sum_of_widths(&self, exprs: &[Expr]) -> Option<u128>
        requires { AreNarrow self.now }
        ensures value { result ≡ sum_of (map (expr_width (width_under self.now)) exprs.now) }
        ensures few { IfSome result (λ sum. sum ≤ 128 * length exprs.now) }
    {
        let mut sum = 0;
        for expr in exprs {
            sum += self.width(expr)?;
        }
        Some(sum)
    }

    /// The width of a name; 0 of one that is not declared.
    pub fn width_of(&self, name: &Name) -> u128
        requires { AreNarrow self.now }
        ensures value { result ≡ width_under self.now name.now }
        ensures narrow { result ≤ 128 }
    {
        match self.get(name) {
            Some(thing) => thing.high.map_or(1, |high| high + 1),
            None => 0,
        }
    }
}

/// Whether a constant has a width of 1 to 128 bits, and a value that fits it.
pub fn constant_fits(constant: Constant) -> bool
    ensures { result ≡ constant_fits constant }
{
    1 <= constant.width && constant.width <= GREATEST_WIDTH && fits(constant.value, constant.width)
}

// Whether a value has at most so many bits.
fn fits(value: u128, width: u128) -> bool
    requires { width ≤ 128 }
    ensures { result ≡ nat_lt value (2 ^ width) }
{
    width == GREATEST_WIDTH || value >> width == 0
}

fn constant_width(constant: Constant) -> Option<u128>
    ensures value { result ≡ constant_width constant }
    ensures narrow { IfSome result (λ width. width ≤ 128) }
{
    if constant_fits(constant) {
        Some(constant.width)
    } else {
        None
    }
}

fn bit_width(width: u128, index: u128) -> Option<u128>
    ensures value { result ≡ bit_width width index }
    ensures narrow { IfSome result (λ width. width ≤ 128) }
{
    if 1 < width && index < width {
        Some(1)
    } else {
        None
    }
}

fn part_width(width: u128, high: u128, low: u128) -> Option<u128>
    requires { width ≤ 128 }
    ensures value { result ≡ part_width width high low }
    ensures narrow { IfSome result (λ width. width ≤ 128) }
{
    if 1 < width && low <= high && high < width {
        Some(high + 1 - low)
    } else {
        None
    }
}

fn at_most_128(width: u128) -> Option<u128>
    ensures value { result ≡ at_most_128 width }
    ensures narrow { IfSome result (λ width. width ≤ 128) }
{
    if width <= GREATEST_WIDTH {
        Some(width)
    } else {
        None
    }
}

fn binary_width(operator: Operator, left: u128, right: u128) -> Option<u128>
    requires { left ≤ 128 }
    ensures value { result ≡ binary_width operator left right }
    ensures narrow { IfSome result (λ width. width ≤ 128) }
{
    if is_shift(operator) || left == right {
        Some(operator_width(operator, left))
    } else {
        None
    }
}

fn is_shift(operator: Operator) -> bool
    ensures { result ≡ is_shift operator }
{
    matches!(operator, Operator::ShiftLeft | Operator::ShiftRight)
}

/// How wide an operation is whose left side has this width.
pub fn operator_width(operator: Operator, left: u128) -> u128
    ensures { result ≡ operator_width operator left }
{
    match operator {
        Operator::Equal | Operator::Less => 1,
        _ => left,
    }
}

fn choice_width(condition: u128, first: u128, second: u128) -> Option<u128>
    requires { first ≤ 128 }
    ensures value { result ≡ choice_width condition first second }
    ensures narrow { IfSome result (λ width. width ≤ 128) }
{
    if condition == 1 && first == second {
        Some(first)
    } else {
        None
    }
}
