//! Addresses of memories, and how many words they have.

ghost use Rattle.std.specs.Prelude.{◌≡◌, ◌&&◌, ◌+◌, ◌≤◌, nat_le, map, sum_by, is_some};
ghost use Rattle.std.specs.List.{list_all};
ghost use Rattle.lg_vrules.specs.Known.{sort_under, width_under, AreNarrow};
ghost use Rattle.lg_vrules.specs.Rules.{address_width, is_address, addresses, all_address, stmt_addresses, decl_words, decl_is_whole, are_addressed};

use crate::names::NameIndex;
use crate::rules::stmts;
use lg_vtree::{Assign, Decl, Expr, Module, Name, Stmt};

/// How many words all memories of a module have at most, together.
pub const MOST_WORDS: u128 = 1_048_576;

/// How many bits an address of a memory has at most.
const WIDEST_ADDRESS: u32 = 20;

impl NameIndex {
    /// Whether each memory has as many words as its addresses tell, and all together are not too many.
    pub fn are_addressed(&self, module: &Module) -> bool
        requires { AreNarrow self.now }
        ensures { result ≡ are_addressed (sort_under self.now) (width_under self.now) «module».now }
    {
        let decls = module.decls.as_slice();
        let assigns = module.assigns.as_slice();
        (are_whole(decls) & words_fit(decls))
            & (self.assigns_address(assigns) & self.stmts_address(stmts(module)))
    }

    fn assigns_address(&self, assigns: &[Assign]) -> bool
        requires { AreNarrow self.now }
        ensures { result ≡ list_all (λ assign. all_address (sort_under self.now) (width_under self.now) assign.value) assigns.now }
    {
        assigns.iter().all(|assign| self.all_address(&assign.value))
    }

    fn stmts_address(&self, stmts: &[Stmt]) -> bool
        requires { AreNarrow self.now }
        ensures { result ≡ list_all (stmt_addresses (sort_under self.now) (width_under self.now)) stmts.now }
    {
        stmts.iter().all(|stmt| self.stmt_addresses(stmt))
    }

    fn stmt_addresses(&self, stmt: &Stmt) -> bool
        requires { AreNarrow self.now }
        ensures { result ≡ stmt_addresses (sort_under self.now) (width_under self.now) stmt.now }
    {
        match stmt {
            Stmt::Store { value, .. } => self.all_address(value),
            Stmt::StoreIf {
                condition,
                name,
                address,
                value,
            } => {
                self.addresses(name, address)
                    & (self.all_address(condition)
                        & (self.all_address(address) & self.all_address(value)))
            }
        }
    }

    // Whether each address in an expression is as wide as those of its memory.
    #[cycle(address)]
    #[tactic(auto, using(crate::proofs::InsideLemmas::rebuilt))]
    fn all_address(&self, expr: &Expr) -> bool
        requires { AreNarrow self.now }
        ensures { result ≡ all_address (sort_under self.now) (width_under self.now) expr.now }
    {
        match expr {
            Expr::Const(_) | Expr::Whole(_) | Expr::Bit(_, _) | Expr::Part(_, _, _) => true,
            Expr::Item(name, address) => self.addresses(name, address.get())
                & self.all_address(address.get()),
            Expr::Join(first, second, more) => {
                self.each_address(more.as_slice())
                    & (self.all_address(first.get()) & self.all_address(second.get()))
            }
            Expr::Not(inner) => self.all_address(inner.get()),
            Expr::Binary(left, _, right) => {
                self.all_address(left.get()) & self.all_address(right.get())
            }
            Expr::Choice(condition, first, second) => {
                self.all_address(condition.get())
                    & (self.all_address(first.get()) & self.all_address(second.get()))
            }
        }
    }

    #[cycle(address)]
    fn each_address(&self, exprs: &[Expr]) -> bool
        requires { AreNarrow self.now }
        ensures { result ≡ list_all (λ fits. fits) (map (all_address (sort_under self.now) (width_under self.now)) exprs.now) }
    {
        for expr in exprs {
            if !self.all_address(expr) {
                return false;
            }
        }
        true
    }

    // Whether an expression is as wide as the addresses of a memory.
    fn addresses(&self, name: &Name, address: &Expr) -> bool
        requires { AreNarrow self.now }
        ensures { result ≡ addresses (sort_under self.now) (width_under self.now) name.now address.now }
    {
        match (address_width(self.last_address(name)), self.width(address)) {
            (Some(wanted), Some(width)) => u128::from(wanted) == width,
            _ => false,
        }
    }
}

// How wide an address of a memory is; none where its words are no power of two.
fn address_width(last: u128) -> Option<u32>
    ensures { result ≡ address_width last }
{
    for width in 1..=WIDEST_ADDRESS {
        if last == (1 << width) - 1 {
            return Some(width);
        }
    }
    None
}

fn are_whole(decls: &[Decl]) -> bool
    ensures { result ≡ list_all decl_is_whole decls.now }
{
    decls.iter().all(|decl| is_whole(decl))
}

fn is_whole(decl: &Decl) -> bool
    ensures { result ≡ decl_is_whole decl.now }
{
    match decl {
        Decl::Memory { last, .. } => address_width(*last).is_some(),
        Decl::Wire { .. } | Decl::Reg { .. } => true,
    }
}

// Whether the memories have not too many words together.
fn words_fit(decls: &[Decl]) -> bool
    ensures { result ≡ nat_le (sum_by decl_words decls.now) 1048576 }
{
    let mut words = 0;
    for decl in decls {
        if let Decl::Memory { last, .. } = decl {
            if *last >= MOST_WORDS - words {
                return false;
            }
            words += *last + 1;
        }
    }
    true
}
