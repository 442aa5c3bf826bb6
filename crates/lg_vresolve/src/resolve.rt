//! Expressions turned into terms.

ghost use Rattle.std.specs.Prelude.{◌≡◌, map, fold, IfOk};
ghost use Rattle.lg_vrules.specs.Known.{width_under, AreNarrow};
ghost use Rattle.lg_vrules.specs.Indexes.{index_under};
ghost use Rattle.lg_vresolve.specs.Resolved.{resolved, resolved_join, resolved_part, resolved_not, resolved_binary, resolved_choice, index_or_0, IsTermOf};

use lg_vmachine::Term;
use lg_vrules::{Indexes, NameIndex, operator_width};
use lg_vtree::{Expr, Memory, Name, Operator};
use sqlite_items::Boxed;
use std::alloc::{AllocError, Global};

/// A term, and how wide its number is.
#[derive(Debug, Drop)]
pub struct Resolved {
    pub term: Term,
    pub width: u128,
}

/// What the names in expressions stand for: their widths, the indexes of numbers, and those of memories.
#[derive(Clone, Copy)]
pub struct Resolver<'a> {
    pub names: &'a NameIndex,
    pub numbers: &'a Indexes,
    pub memories: &'a Indexes,
}

impl<'a> Resolver<'a> {
    /// The term of an expression. A name without an index would have the index 0: expressions of a valid module have none.
    pub fn resolve(&self, alloc: Global, expr: &Expr) -> Result<Resolved, Memory>
        requires { AreNarrow self.now.names.now }
        ensures term { IfOk result (λ r. r ≡ resolved (width_under self.now.names.now) (index_under self.now.numbers.now) (index_under self.now.memories.now) expr.now) }
        ensures number { IfOk result (IsTermOf self.now.names.now (index_under self.now.numbers.now) (index_under self.now.memories.now) expr.now) }
    {
        self.turn(alloc, expr)
    }

    // The term of an expression.
    #[cycle(turn)]
    fn turn(&self, alloc: Global, expr: &Expr) -> Result<Resolved, Memory>
        requires { AreNarrow self.now.names.now }
        ensures { IfOk result (λ r. r ≡ resolved (width_under self.now.names.now) (index_under self.now.numbers.now) (index_under self.now.memories.now) expr.now) }
    {
        match expr {
            Expr::Const(constant) => Ok(Resolved {
                term: Term::Const(constant.value),
                width: constant.width,
            }),
            Expr::Whole(name) => Ok(Resolved {
                term: Term::Number(self.index(name)),
                width: self.names.width_of(name),
            }),
            Expr::Bit(name, index) => Ok(self.part(name, *index, *index)),
            Expr::Part(name, high, low) => Ok(self.part(name, *high, *low)),
            Expr::Item(name, address) => {
                let address = self.turn(alloc, address.get())?;
                Ok(Resolved {
                    term: Term::Item(self.memory(name), Boxed::new(alloc, address.term)?),
                    width: self.names.width_of(name),
                })
            }
            Expr::Join(first, second, more) => {
                let first = self.turn(alloc, first.get())?;
                let second = self.turn(alloc, second.get())?;
                let joined = first.above(alloc, second)?;
                self.join_all(alloc, joined, more.as_slice())
            }
            Expr::Not(inner) => Ok(self.turn(alloc, inner.get())?.complement(alloc)?),
            Expr::Binary(left, operator, right) => {
                let left = self.turn(alloc, left.get())?;
                let right = self.turn(alloc, right.get())?;
                Ok(left.with(alloc, *operator, right)?)
            }
            Expr::Choice(condition, first, second) => {
                let condition = self.turn(alloc, condition.get())?;
                let first = self.turn(alloc, first.get())?;
                let second = self.turn(alloc, second.get())?;
                Ok(condition.choose(alloc, first, second)?)
            }
        }
    }

    // A term with those of more expressions below it.
    #[cycle(turn)]
    fn join_all(&self, alloc: Global, high: Resolved, exprs: &[Expr]) -> Result<Resolved, Memory>
        requires { AreNarrow self.now.names.now }
        ensures { IfOk result (λ r. r ≡ fold resolved_join high (map (resolved (width_under self.now.names.now) (index_under self.now.numbers.now) (index_under self.now.memories.now)) exprs.now)) }
    {
        let mut joined = high;
        for expr in exprs {
            let low = self.turn(alloc, expr)?;
            joined = joined.above(alloc, low)?;
        }
        Ok(joined)
    }

    // Some bits of a name.
    fn part(&self, name: &Name, high: u128, low: u128) -> Resolved
        ensures { result ≡ resolved_part (index_or_0 (index_under self.now.numbers.now) name.now) high low }
    {
        let width = high.saturating_sub(low).saturating_add(1);
        Resolved {
            term: Term::Part {
                index: self.index(name),
                low,
                width,
            },
            width,
        }
    }

    /// The index of a name's number.
    pub fn index(&self, name: &Name) -> usize
        ensures { result ≡ index_or_0 (index_under self.now.numbers.now) name.now }
    {
        self.numbers.get(name.as_str()).unwrap_or(0)
    }

    fn memory(&self, name: &Name) -> usize
        ensures { result ≡ index_or_0 (index_under self.now.memories.now) name.now }
    {
        self.memories.get(name.as_str()).unwrap_or(0)
    }
}

impl Resolved {
    // This above another.
    fn above(self, alloc: Global, low: Resolved) -> Result<Resolved, AllocError>
        ensures { IfOk result (λ r. r ≡ resolved_join self low) }
    {
        Ok(Resolved {
            width: self.width.saturating_add(low.width),
            term: Term::Join(
                Boxed::new(alloc, self.term)?,
                low.width,
                Boxed::new(alloc, low.term)?,
            ),
        })
    }

    fn complement(self, alloc: Global) -> Result<Resolved, AllocError>
        ensures { IfOk result (λ r. r ≡ resolved_not self) }
    {
        Ok(Resolved {
            width: self.width,
            term: Term::Not(self.width, Boxed::new(alloc, self.term)?),
        })
    }

    fn with(
        self,
        alloc: Global,
        operator: Operator,
        right: Resolved,
    ) -> Result<Resolved, AllocError>
        ensures { IfOk result (λ r. r ≡ resolved_binary self operator right) }
    {
        Ok(Resolved {
            width: operator_width(operator, self.width),
            term: Term::Binary(
                self.width,
                Boxed::new(alloc, self.term)?,
                operator,
                Boxed::new(alloc, right.term)?,
            ),
        })
    }

    // The first where this is not 0, else the second.
    fn choose(
        self,
        alloc: Global,
        first: Resolved,
        second: Resolved,
    ) -> Result<Resolved, AllocError>
        ensures { IfOk result (λ r. r ≡ resolved_choice self first second) }
    {
        Ok(Resolved {
            width: first.width,
            term: Term::Choice(
                Boxed::new(alloc, self.term)?,
                Boxed::new(alloc, first.term)?,
                Boxed::new(alloc, second.term)?,
            ),
        })
    }
}
