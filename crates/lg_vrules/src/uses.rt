//! Names used as they are declared.

ghost use Rattle.std.specs.Prelude.{◌≡◌, map};
ghost use Rattle.std.specs.List.{list_all};
ghost use Rattle.lg_vrules.specs.Known.{sort_under};
ghost use Rattle.lg_vrules.specs.Things.{is_readable, is_memory, is_reg};
ghost use Rattle.lg_vrules.specs.Rules.{is_of, reads_declared, is_target, stmt_uses, assign_uses, is_no_clock, all_use, are_used};

use crate::names::{NameIndex, Sort, thing_of_decl};
use crate::rules::{fills, stmts, words};
use lg_vtree::{Assign, Decl, Expr, Fill, Module, Name, Stmt, Word};

impl NameIndex {
    /// Whether an expression reads only what has a number, and words of memories.
    #[cycle(reads)]
    pub fn reads_declared(&self, expr: &Expr) -> bool
        ensures { result ≡ reads_declared (sort_under self.now) expr.now }
    {
        match expr {
            Expr::Const(_) => true,
            Expr::Whole(name) | Expr::Bit(name, _) | Expr::Part(name, _, _) => {
                self.is_readable(name)
            }
            Expr::Item(name, address) => self.is_memory(name) && self.reads_declared(address.get()),
            Expr::Join(first, second, more) => {
                self.reads_declared(first.get())
                    && self.reads_declared(second.get())
                    && self.all_read_declared(more.as_slice())
            }
            Expr::Not(inner) => self.reads_declared(inner.get()),
            Expr::Binary(left, _, right) => {
                self.reads_declared(left.get()) && self.reads_declared(right.get())
            }
            Expr::Choice(condition, first, second) => {
                self.reads_declared(condition.get())
                    && self.reads_declared(first.get())
                    && self.reads_declared(second.get())
            }
        }
    }

    #[cycle(reads)]
    fn all_read_declared(&self, exprs: &[Expr]) -> bool
        ensures { result ≡ list_all (λ reads. reads) (map (reads_declared (sort_under self.now)) exprs.now) }
    {
        for expr in exprs {
            if !self.reads_declared(expr) {
                return false;
            }
        }
        true
    }

    /// Whether each name of a module is used as it is declared, and the clock's is declared as an input alone.
    pub fn are_used(&self, module: &Module) -> bool
        ensures { result ≡ are_used (sort_under self.now) «module».now }
    {
        keep_the_clock(module.decls.as_slice()) && self.all_use(module)
    }

    // Whether each name that stands in the lines of a module is used as it is declared.
    fn all_use(&self, module: &Module) -> bool
        ensures { result ≡ all_use (sort_under self.now) «module».now }
    {
        self.assigns_use(module.assigns.as_slice())
            && self.stmts_use(stmts(module))
            && self.fill_memories(fills(module))
            && self.are_of_memories(words(module))
    }

    fn assigns_use(&self, assigns: &[Assign]) -> bool
        ensures { result ≡ list_all (assign_uses (sort_under self.now)) assigns.now }
    {
        assigns.iter().all(|assign| self.assign_uses(assign))
    }

    fn stmts_use(&self, stmts: &[Stmt]) -> bool
        ensures { result ≡ list_all (stmt_uses (sort_under self.now)) stmts.now }
    {
        stmts.iter().all(|stmt| self.stmt_uses(stmt))
    }

    fn fill_memories(&self, fills: &[Fill]) -> bool
        ensures { result ≡ list_all (λ fill. is_of is_memory (sort_under self.now) fill.name) fills.now }
    {
        fills.iter().all(|fill| self.is_memory(&fill.name))
    }

    fn are_of_memories(&self, words: &[Word]) -> bool
        ensures { result ≡ list_all (λ word. is_of is_memory (sort_under self.now) word.name) words.now }
    {
        words.iter().all(|word| self.is_memory(&word.name))
    }

    /// Whether a statement stores into a register or a memory, and reads only what it may.
    pub fn stmt_uses(&self, stmt: &Stmt) -> bool
        ensures { result ≡ stmt_uses (sort_under self.now) stmt.now }
    {
        match stmt {
            Stmt::Store { name, value } => self.is_reg(name) && self.reads_declared(value),
            Stmt::StoreIf {
                condition,
                name,
                address,
                value,
            } => {
                self.is_memory(name)
                    && self.reads_declared(condition)
                    && self.reads_declared(address)
                    && self.reads_declared(value)
            }
        }
    }

    /// Whether what an `assign` gives a number is declared and not the clock, and it reads only what it may.
    pub fn assign_uses(&self, assign: &Assign) -> bool
        ensures { result ≡ assign_uses (sort_under self.now) assign.now }
    {
        self.is_target(&assign.name) && self.reads_declared(&assign.value)
    }

    /// Whether a name is declared as what has one number that an expression may read.
    pub fn is_readable(&self, name: &Name) -> bool
        ensures { result ≡ is_of is_readable (sort_under self.now) name.now }
    {
        match self.sort(name) {
            Some(Sort::Clock | Sort::Memory(_)) | None => false,
            Some(_) => true,
        }
    }

    /// Whether a name is declared as a memory.
    pub fn is_memory(&self, name: &Name) -> bool
        ensures { result ≡ is_of is_memory (sort_under self.now) name.now }
    {
        matches!(self.sort(name), Some(Sort::Memory(_)))
    }

    fn is_reg(&self, name: &Name) -> bool
        ensures { result ≡ is_of is_reg (sort_under self.now) name.now }
    {
        matches!(self.sort(name), Some(Sort::Reg))
    }

    fn is_target(&self, name: &Name) -> bool
        ensures { result ≡ is_of is_target (sort_under self.now) name.now }
    {
        match self.sort(name) {
            Some(Sort::Clock) | None => false,
            Some(_) => true,
        }
    }
}

// Whether no declaration has the clock's name.
fn keep_the_clock(decls: &[Decl]) -> bool
    ensures { result ≡ list_all is_no_clock decls.now }
{
    decls.iter().all(|decl| is_no_clock(decl))
}

fn is_no_clock(decl: &Decl) -> bool
    ensures { result ≡ is_no_clock decl.now }
{
    thing_of_decl(decl).0.as_str() != "clk"
}
