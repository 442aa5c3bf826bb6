//! Widths, indexes and addresses that fit.

ghost use Rattle.std.specs.Prelude.{◌≡◌, ℕ, ◌&&◌, is_some};
ghost use Rattle.std.specs.List.{list_all};
ghost use Rattle.lg_vrules.specs.Known.{sort_under, width_under, AreNarrow};
ghost use Rattle.lg_vrules.specs.Rules.{expr_width, is_width, constant_of, decl_fits, fill_fits, word_fits, last_address, assign_fits, stmt_fits, are_fitting};

use crate::names::{NameIndex, Sort};
use crate::rules::{fills, stmts, words};
use crate::widths::constant_fits;
use lg_vtree::{Assign, Constant, Decl, Expr, Fill, Module, Name, Stmt, Word};

impl NameIndex {
    /// Whether all widths, indexes and addresses of a module fit.
    pub fn are_fitting(&self, module: &Module) -> bool
        requires { AreNarrow self.now }
        ensures { result ≡ are_fitting (sort_under self.now) (width_under self.now) «module».now }
    {
        self.decls_fit(module.decls.as_slice())
            && self.fills_fit(fills(module))
            && self.words_fit(words(module))
            && self.assigns_fit(module.assigns.as_slice())
            && self.stmts_fit(stmts(module))
    }

    fn decls_fit(&self, decls: &[Decl]) -> bool
        requires { AreNarrow self.now }
        ensures { result ≡ list_all (decl_fits (width_under self.now)) decls.now }
    {
        decls.iter().all(|decl| self.decl_fits(decl))
    }

    fn fills_fit(&self, fills: &[Fill]) -> bool
        requires { AreNarrow self.now }
        ensures { result ≡ list_all (fill_fits (width_under self.now)) fills.now }
    {
        fills.iter().all(|fill| self.fill_fits(fill))
    }

    fn words_fit(&self, words: &[Word]) -> bool
        requires { AreNarrow self.now }
        ensures { result ≡ list_all (word_fits (sort_under self.now) (width_under self.now)) words.now }
    {
        words.iter().all(|word| self.word_fits(word))
    }

    fn assigns_fit(&self, assigns: &[Assign]) -> bool
        requires { AreNarrow self.now }
        ensures { result ≡ list_all (assign_fits (sort_under self.now) (width_under self.now)) assigns.now }
    {
        assigns.iter().all(|assign| self.assign_fits(assign))
    }

    fn stmts_fit(&self, stmts: &[Stmt]) -> bool
        requires { AreNarrow self.now }
        ensures { result ≡ list_all (stmt_fits (width_under self.now)) stmts.now }
    {
        stmts.iter().all(|stmt| self.stmt_fits(stmt))
    }

    fn decl_fits(&self, decl: &Decl) -> bool
        requires { AreNarrow self.now }
        ensures { result ≡ decl_fits (width_under self.now) decl.now }
    {
        match decl {
            Decl::Reg { name, start, .. } => self.is_constant_of(name, *start),
            Decl::Wire { .. } | Decl::Memory { .. } => true,
        }
    }

    fn fill_fits(&self, fill: &Fill) -> bool
        requires { AreNarrow self.now }
        ensures { result ≡ fill_fits (width_under self.now) fill.now }
    {
        self.is_constant_of(&fill.name, fill.value)
    }

    fn word_fits(&self, word: &Word) -> bool
        requires { AreNarrow self.now }
        ensures { result ≡ word_fits (sort_under self.now) (width_under self.now) word.now }
    {
        word.address <= self.last_address(&word.name) && self.is_constant_of(&word.name, word.value)
    }

    /// The last address of a memory; 0 of what is none.
    pub fn last_address(&self, name: &Name) -> u128
        ensures { result ≡ last_address (sort_under self.now name.now) }
    {
        match self.sort(name) {
            Some(Sort::Memory(last)) => last,
            _ => 0,
        }
    }

    // Whether a constant fits, in the width of a name.
    fn is_constant_of(&self, name: &Name, constant: Constant) -> bool
        requires { AreNarrow self.now }
        ensures { result ≡ constant_of (width_under self.now) name.now constant }
    {
        constant_fits(constant) && constant.width == self.width_of(name)
    }

    fn assign_fits(&self, assign: &Assign) -> bool
        requires { AreNarrow self.now }
        ensures { result ≡ assign_fits (sort_under self.now) (width_under self.now) assign.now }
    {
        if self.is_memory(&assign.name) {
            self.has_width(&assign.value)
        } else {
            self.is_width(self.width_of(&assign.name), &assign.value)
        }
    }

    fn stmt_fits(&self, stmt: &Stmt) -> bool
        requires { AreNarrow self.now }
        ensures { result ≡ stmt_fits (width_under self.now) stmt.now }
    {
        match stmt {
            Stmt::Store { name, value } => self.is_width(self.width_of(name), value),
            Stmt::StoreIf {
                condition,
                name,
                address,
                value,
            } => self.is_width(1, condition) && self.store_fits(name, address, value),
        }
    }

    // Whether the address and the value of a store into a memory fit.
    fn store_fits(&self, name: &Name, address: &Expr, value: &Expr) -> bool
        requires { AreNarrow self.now }
        ensures { result ≡ (is_some (expr_width (width_under self.now) address.now)
            && is_width (width_under self.now) (width_under self.now name.now) value.now) }
    {
        self.has_width(address) && self.is_width(self.width_of(name), value)
    }

    // Whether an expression fits, in some width.
    fn has_width(&self, expr: &Expr) -> bool
        requires { AreNarrow self.now }
        ensures { result ≡ is_some (expr_width (width_under self.now) expr.now) }
    {
        self.width(expr).is_some()
    }

    // Whether an expression fits, in this width.
    fn is_width(&self, width: u128, expr: &Expr) -> bool
        requires { AreNarrow self.now }
        ensures { result ≡ is_width (width_under self.now) width expr.now }
    {
        self.width(expr) == Some(width)
    }
}
