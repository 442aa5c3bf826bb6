//! What an edge stores, by name.

ghost use Rattle.std.specs.Prelude.{◌≡◌, map, slice_get, option_copied, option_and_then, IfOk};
ghost use Rattle.lg_vrules.specs.Known.{AreNarrow};
ghost use Rattle.lg_vrules.specs.Indexes.{index_under};
ghost use Rattle.lg_vmeaning.specs.Compiled.{next_by, write_by};
ghost use Rattle.lg_vmeaning.specs.ByName.{term_by, stmt_under};

use lg_vmachine::{Term, Write};
use lg_vresolve::Resolver;
use lg_vrules::Indexes;
use lg_vtree::{Memory, Stmt};
use sqlite_items::{Items, at};
use std::alloc::Global;

/// The statements of an edge, with the index of each under the name that it stores into.
#[derive(Clone, Copy)]
pub struct Stores<'a> {
    pub resolver: Resolver<'a>,
    pub stmts: &'a [Stmt],
    pub indexes: &'a Indexes,
}

impl<'a> Stores<'a> {
    /// What is stored into each of these registers.
    pub fn nexts(&self, alloc: Global, registers: &[&str]) -> Result<Items<Option<Term>>, Memory>
        requires { AreNarrow self.now.resolver.names.now }
        ensures { IfOk result (λ terms. terms ≡ map (λ name. next_by (term_by self.now.resolver) (stmt_under self.now name.now)) registers.now) }
    {
        let mut terms = Items::new(alloc);
        for name in registers {
            terms.push(self.next(alloc, name)?)?;
        }
        Ok(terms)
    }

    /// What is written into each of these memories.
    pub fn writes(&self, alloc: Global, memories: &[&str]) -> Result<Items<Option<Write>>, Memory>
        requires { AreNarrow self.now.resolver.names.now }
        ensures { IfOk result (λ writes. writes ≡ map (λ name. write_by (term_by self.now.resolver) (stmt_under self.now name.now)) memories.now) }
    {
        let mut writes = Items::new(alloc);
        for name in memories {
            writes.push(self.write(alloc, name)?)?;
        }
        Ok(writes)
    }

    fn next(&self, alloc: Global, register: &str) -> Result<Option<Term>, Memory>
        requires { AreNarrow self.now.resolver.names.now }
        ensures { IfOk result (λ term. term ≡ next_by (term_by self.now.resolver) (stmt_under self.now register.now)) }
    {
        match self.stmt(register) {
            Some(Stmt::Store { value, .. }) => Ok(Some(self.resolver.resolve(alloc, value)?.term)),
            _ => Ok(None),
        }
    }

    fn write(&self, alloc: Global, memory: &str) -> Result<Option<Write>, Memory>
        requires { AreNarrow self.now.resolver.names.now }
        ensures { IfOk result (λ write. write ≡ write_by (term_by self.now.resolver) (stmt_under self.now memory.now)) }
    {
        match self.stmt(memory) {
            Some(
                Stmt::StoreIf {
                    condition,
                    address,
                    value,
                    ..
                },
            ) => Ok(Some(Write {
                condition: self.resolver.resolve(alloc, condition)?.term,
                address: self.resolver.resolve(alloc, address)?.term,
                value: self.resolver.resolve(alloc, value)?.term,
            })),
            _ => Ok(None),
        }
    }

    // The statement that stores into what has this name.
    fn stmt(&self, name: &str) -> Option<&Stmt>
        ensures { option_copied result ≡ stmt_under self.now name.now }
    {
        at(self.stmts, self.indexes.get(name)?)
    }
}
