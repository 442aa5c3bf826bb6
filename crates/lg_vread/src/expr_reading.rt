//! Expressions, read from tokens.

ghost use Rattle.std.specs.Prelude.{◌≡◌, IsTrue, IfOk, codes};
ghost use Rattle.lg_vread.specs.Lexing.{left, is_fixed};
ghost use Rattle.lg_vread.specs.Reading.{Gives, is_at, all_at, expr_at, before_at, paren_at, choice_at, binary_at, join_at, other_at, plain_at, bits_at};

use crate::fault::ReadFault;
use crate::reader::Reader;
use lg_vtree::{Expr, Name, Operator};
use sqlite_items::{Boxed, Items};
use std::alloc::{AllocError, Global};

impl<'a> Reader<'a> {
    /// Takes an expression that is at most so deep.
    #[cycle(expr)]
    #[tactic(auto, unfolding(crate::specs::Reading::expr_at, crate::specs::Reading::form_at))]
    pub fn expr(&mut self, alloc: Global, depth: usize) -> Result<Expr, ReadFault>
        ensures { Gives result (left self.new) (expr_at depth (left self.old)) }
    {
        if depth == 0 {
            return Err(ReadFault::NotSubset);
        }
        if self.take("(") {
            self.parenthesized(alloc, depth - 1)
        } else if self.take("{") {
            self.join(alloc, depth - 1)
        } else {
            self.plain(alloc, depth - 1)
        }
    }

    /// Takes an expression and the sign behind it.
    #[cycle(expr)]
    fn expr_before(&mut self, alloc: Global, depth: usize, sign: &str) -> Result<Expr, ReadFault>
        requires { IsTrue (is_fixed sign.now) }
        ensures { Gives result (left self.new) (before_at (expr_at depth) sign.now (left self.old)) }
    {
        let expr = self.expr(alloc, depth)?;
        self.expect(sign)?;
        Ok(expr)
    }

    /// After `(`, with parts that are at most so deep, as in all that follow.
    #[cycle(expr)]
    #[tactic(auto, unfolding(crate::specs::Reading::paren_at, crate::specs::Reading::not_at, crate::specs::Reading::operation_at))]
    fn parenthesized(&mut self, alloc: Global, depth: usize) -> Result<Expr, ReadFault>
        ensures { Gives result (left self.new) (paren_at (expr_at depth) (left self.old)) }
    {
        if self.take("~") {
            let inner = self.expr_before(alloc, depth, ")")?;
            return Ok(Expr::Not(Boxed::new(alloc, inner)?));
        }
        let first = self.expr(alloc, depth)?;
        if self.take("?") {
            self.choice(alloc, depth, first)
        } else {
            self.binary(alloc, depth, first)
        }
    }

    /// After `(`, a condition and `?`.
    #[cycle(expr)]
    #[tactic(auto, unfolding(crate::specs::Reading::choice_at))]
    fn choice(&mut self, alloc: Global, depth: usize, condition: Expr) -> Result<Expr, ReadFault>
        ensures { Gives result (left self.new) (choice_at (expr_at depth) condition (left self.old)) }
    {
        let first = self.expr_before(alloc, depth, ":")?;
        let second = self.expr_before(alloc, depth, ")")?;
        Ok(choice_of(alloc, condition, first, second)?)
    }

    /// After `(` and the first part, where no `?` comes.
    #[cycle(expr)]
    #[tactic(auto, unfolding(crate::specs::Reading::binary_at))]
    fn binary(&mut self, alloc: Global, depth: usize, first: Expr) -> Result<Expr, ReadFault>
        ensures { Gives result (left self.new) (binary_at (expr_at depth) first (left self.old)) }
    {
        let operator = self.operator()?;
        let second = self.expr_before(alloc, depth, ")")?;
        Ok(binary_of(alloc, first, operator, second)?)
    }

    /// After `{`.
    #[cycle(expr)]
    #[tactic(auto, unfolding(crate::specs::Reading::join_at, crate::specs::Reading::other_at))]
    fn join(&mut self, alloc: Global, depth: usize) -> Result<Expr, ReadFault>
        ensures { Gives result (left self.new) (join_at (expr_at depth) (left self.old)) }
    {
        let first = self.expr_before(alloc, depth, ",")?;
        let second = self.expr(alloc, depth)?;
        let more = self.other_exprs(alloc, depth)?;
        self.expect("}")?;
        Ok(join_of(alloc, first, second, more)?)
    }

    /// Each after a comma.
    #[cycle(expr)]
    fn other_exprs(&mut self, alloc: Global, depth: usize) -> Result<Items<Expr>, ReadFault>
        ensures { Gives result (left self.new) (all_at (is_at (codes ",")) (other_at (expr_at depth)) (left self.old)) }
    {
        let mut others = Items::new(alloc);
        while self.take(",") {
            others.push(self.expr(alloc, depth)?)?;
        }
        Ok(others)
    }

    /// A constant, or what begins with a name.
    #[cycle(expr)]
    #[tactic(auto, unfolding(crate::specs::Reading::plain_at, crate::specs::Reading::named_at, crate::specs::Reading::select_at, crate::specs::Reading::item_at))]
    fn plain(&mut self, alloc: Global, depth: usize) -> Result<Expr, ReadFault>
        ensures { Gives result (left self.new) (plain_at (expr_at depth) (left self.old)) }
    {
        if let Some(constant) = self.try_constant() {
            return Ok(Expr::Const(constant));
        }
        let name = self.name(alloc)?;
        if !self.take("[") {
            return Ok(Expr::Whole(name));
        }
        if let Some(number) = self.try_number() {
            return self.bits(name, number);
        }
        let address = self.expr_before(alloc, depth, "]")?;
        Ok(Expr::Item(name, Boxed::new(alloc, address)?))
    }

    /// After a name, `[` and a number.
    #[tactic(auto, unfolding(crate::specs::Reading::bits_at))]
    fn bits(&mut self, name: Name, number: u128) -> Result<Expr, ReadFault>
        ensures { Gives result (left self.new) (bits_at name number (left self.old)) }
    {
        if !self.take(":") {
            self.expect("]")?;
            return Ok(Expr::Bit(name, number));
        }
        let low = self.number()?;
        self.expect("]")?;
        Ok(Expr::Part(name, number, low))
    }
}

fn choice_of(alloc: Global, condition: Expr, first: Expr, second: Expr) -> Result<Expr, AllocError>
    ensures { IfOk result (λ e. e ≡ Expr.Choice condition first second) }
{
    let condition = Boxed::new(alloc, condition)?;
    let first = Boxed::new(alloc, first)?;
    Ok(Expr::Choice(condition, first, Boxed::new(alloc, second)?))
}

fn binary_of(
    alloc: Global,
    first: Expr,
    operator: Operator,
    second: Expr,
) -> Result<Expr, AllocError>
    ensures { IfOk result (λ e. e ≡ Expr.Binary first operator second) }
{
    let first = Boxed::new(alloc, first)?;
    Ok(Expr::Binary(first, operator, Boxed::new(alloc, second)?))
}

fn join_of(alloc: Global, first: Expr, second: Expr, more: Items<Expr>) -> Result<Expr, AllocError>
    ensures { IfOk result (λ e. e ≡ Expr.Join first second more) }
{
    let first = Boxed::new(alloc, first)?;
    Ok(Expr::Join(first, Boxed::new(alloc, second)?, more))
}
