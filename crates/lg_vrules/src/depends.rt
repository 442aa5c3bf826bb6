//! Which assigns depend on which.

ghost use Rattle.std.specs.Prelude.{◌≡◌, ◌++◌, true, map, IfOk, OnOk};
ghost use Rattle.std.specs.List.{flat_map};
ghost use Rattle.lg_vrules.specs.Rules.{all_differ, assigned};
ghost use Rattle.lg_vrules.specs.Depends.{names_read};
ghost use Rattle.lg_vrules.specs.Indexes.{index_under, index_list, indexes_of, first_marked_from};
ghost use Rattle.lg_vrules.specs.Order.{IsDependence};

use crate::indexes::Indexes;
use crate::once::assigned_names;
use lg_graph::sort;
use lg_vtree::{Assign, Expr, Memory, Module, Name};
use sqlite_items::Items;
use std::alloc::{AllocError, Global};

/// How the assigns of a module depend on one another.
#[derive(Debug, Drop)]
pub enum Dependence {
    /// Their indexes in an order in which each stands after those that it reads: none depends on itself.
    Ordered(Items<usize>),
    /// The index of the first whose name depends on itself.
    Cyclic(usize),
}

/// How the assigns of a module depend on one another, where no two give one name a number.
pub fn assign_order(alloc: Global, module: &Module) -> Result<Dependence, Memory>
    requires { all_differ (assigned «module».now) ≡ true }
    ensures { IfOk result (IsDependence «module».now) }
{
    let assigns = module.assigns.as_slice();
    let names = assigned_names(alloc, assigns)?;
    let indexes = Indexes::of(alloc, names.as_slice())?;
    let graph = indexes.graph(alloc, assigns)?;
    let sorted = sort(alloc, graph.as_slice())?;
    Ok(match first_marked(sorted.cyclic.as_slice()) {
        Some(at) => Dependence::Cyclic(at),
        None => Dependence::Ordered(sorted.order),
    })
}

// The index of the first mark.
fn first_marked(marks: &[bool]) -> Option<usize>
    ensures { result ≡ first_marked_from 0 marks.now }
{
    for (at, mark) in marks.iter().enumerate() {
        if *mark {
            return Some(at);
        }
    }
    None
}

impl Indexes {
    // For each assign, the indexes of the assigns to names that it reads.
    fn graph(&self, alloc: Global, assigns: &[Assign]) -> Result<Vec<Items<usize>>, AllocError>
        ensures { IfOk result (λ graph. graph.items ≡ map (λ assign. indexes_of (index_under self.now) (names_read assign.value)) assigns.now) }
    {
        let mut graph = Vec::with_capacity(alloc, assigns.len())?;
        for assign in assigns {
            let mut reads = Items::new(alloc);
            self.put_reads(&mut reads, &assign.value)?;
            graph.push(reads)?;
        }
        Ok(graph)
    }

    // Adds the indexes of the assigns to names that an expression reads.
    #[cycle(reads)]
    #[tactic(auto, using(crate::proofs::IndexesLemmas::indexes_both))]
    fn put_reads(&self, reads: &mut Items<usize>, expr: &Expr) -> Result<(), AllocError>
        ensures { OnOk result (reads.new ≡ reads.old ++ indexes_of (index_under self.now) (names_read expr.now)) }
    {
        match expr {
            Expr::Const(_) => Ok(()),
            Expr::Whole(name) | Expr::Bit(name, _) | Expr::Part(name, _, _) => {
                self.put_index(reads, name)
            }
            Expr::Item(_, address) => self.put_reads(reads, address.get()),
            Expr::Join(first, second, more) => {
                self.put_reads(reads, first.get())?;
                self.put_reads(reads, second.get())?;
                self.put_all(reads, more.as_slice())
            }
            Expr::Not(inner) => self.put_reads(reads, inner.get()),
            Expr::Binary(left, _, right) => {
                self.put_reads(reads, left.get())?;
                self.put_reads(reads, right.get())
            }
            Expr::Choice(condition, first, second) => {
                self.put_reads(reads, condition.get())?;
                self.put_reads(reads, first.get())?;
                self.put_reads(reads, second.get())
            }
        }
    }

    #[cycle(reads)]
    #[tactic(auto, using(crate::proofs::IndexesLemmas::indexes_both))]
    fn put_all(&self, reads: &mut Items<usize>, exprs: &[Expr]) -> Result<(), AllocError>
        ensures { OnOk result (reads.new ≡ reads.old ++ indexes_of (index_under self.now) (flat_map (λ names. names) (map names_read exprs.now))) }
    {
        for expr in exprs {
            self.put_reads(reads, expr)?;
        }
        Ok(())
    }

    fn put_index(&self, reads: &mut Items<usize>, name: &Name) -> Result<(), AllocError>
        ensures { OnOk result (reads.new ≡ reads.old ++ index_list (index_under self.now name.now)) }
    {
        if let Some(index) = self.get(name.as_str()) {
            reads.push(index)?;
        }
        Ok(())
    }
}
