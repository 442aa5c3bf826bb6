//! What is assigned, stored and filled, each as often as it must be.

ghost use Rattle.std.specs.Prelude.{◌≡◌, ◌||◌, not, IfOk, map};
ghost use Rattle.std.specs.List.{list_all};
ghost use Rattle.lg_vnames.specs.Sets.{holds};
ghost use Rattle.lg_vrules.specs.Known.{sort_under, is_target};
ghost use Rattle.lg_vrules.specs.Things.{things, port_thing, decl_thing, is_assignable, is_reg, is_memory};
ghost use Rattle.lg_vrules.specs.Rules.{is_of, has_each, assigned, stored_name, are_assigned_once, is_clocked, fill_is_whole, are_stored_once, are_filled_once};

use crate::names::{NameIndex, Sort, sort_of_port, thing_of_decl};
use crate::rules::{fills, stmts};
use lg_vnames::NameSet;
use lg_vtree::{Assign, Decl, Fill, Memory, Module, Name, Port, Stmt};
use std::alloc::Global;

/// What a line of a module assigns to.
#[derive(Clone, Copy, Debug, PartialEq, Eq)]
pub enum Target {
    /// A wire or an output.
    Assigned,
    /// A register.
    Stored,
    /// A memory.
    Filled,
}

impl Target {
    fn is(self, sort: Sort) -> bool
        ensures { result ≡ is_target self sort }
    {
        match self {
            Target::Assigned => matches!(sort, Sort::Wire | Sort::Output),
            Target::Stored => matches!(sort, Sort::Reg),
            Target::Filled => matches!(sort, Sort::Memory(_)),
        }
    }
}

// Whether each thing of a module in this target is in a set.
fn has_each(set: &NameSet, target: Target, module: &Module) -> bool
    ensures { result ≡ has_each (is_target target) (holds set.now) «module».now }
{
    has_ports(set, target, module.ports.as_slice())
        && has_decls(set, target, module.decls.as_slice())
}

fn has_ports(set: &NameSet, target: Target, ports: &[Port]) -> bool
    ensures { result ≡ list_all (λ port. not (is_target target (port_thing port).1.sort) || holds set.now port.name) ports.now }
{
    ports.iter().all(|port| !target.is(sort_of_port(port)) || set.contains(port.name.as_str()))
}

fn has_decls(set: &NameSet, target: Target, decls: &[Decl]) -> bool
    ensures { result ≡ list_all (λ decl. not (is_target target (decl_thing decl).1.sort) || holds set.now (decl_thing decl).0) decls.now }
{
    decls.iter().all(|decl| has_decl(set, target, decl))
}

fn has_decl(set: &NameSet, target: Target, decl: &Decl) -> bool
    ensures { result ≡ (not (is_target target (decl_thing decl.now).1.sort) || holds set.now (decl_thing decl.now).0) }
{
    let (name, thing) = thing_of_decl(decl);
    !target.is(thing.sort) || set.contains(name.as_str())
}

impl NameIndex {
    /// Whether each register is stored exactly once and no memory twice, at an edge of the clock.
    pub fn are_stored_once(&self, alloc: Global, module: &Module) -> Result<bool, Memory>
        ensures { IfOk result (λ answer. answer ≡ are_stored_once (sort_under self.now) «module».now) }
    {
        let names = stored_names(alloc, stmts(module))?;
        match NameSet::of(alloc, names.as_slice())? {
            Some(stored) => Ok(
                has_each(&stored, Target::Stored, module) && self.is_clocked(module),
            ),
            None => Ok(false),
        }
    }

    fn is_clocked(&self, module: &Module) -> bool
        ensures { result ≡ is_clocked (sort_under self.now) «module».now }
    {
        module.edge.is_none() || matches!(self.clock(), Some(Sort::Clock))
    }

    /// Whether each memory is filled exactly once, over its whole length.
    pub fn are_filled_once(&self, alloc: Global, module: &Module) -> Result<bool, Memory>
        ensures { IfOk result (λ answer. answer ≡ are_filled_once (sort_under self.now) «module».now) }
    {
        let names = filled_names(alloc, fills(module))?;
        match NameSet::of(alloc, names.as_slice())? {
            Some(filled) => Ok(
                self.are_whole(fills(module)) && has_each(&filled, Target::Filled, module),
            ),
            None => Ok(false),
        }
    }

    fn are_whole(&self, fills: &[Fill]) -> bool
        ensures { result ≡ list_all (fill_is_whole (sort_under self.now)) fills.now }
    {
        fills.iter().all(|fill| self.is_whole(fill))
    }

    fn is_whole(&self, fill: &Fill) -> bool
        ensures { result ≡ fill_is_whole (sort_under self.now) fill.now }
    {
        fill.count.checked_sub(1) == Some(self.last_address(&fill.name))
    }

    /// Whether wires and outputs, and they alone, have one assign each.
    pub fn are_assigned_once(&self, alloc: Global, module: &Module) -> Result<bool, Memory>
        ensures { IfOk result (λ answer. answer ≡ are_assigned_once (sort_under self.now) «module».now) }
    {
        let assigns = module.assigns.as_slice();
        let names = assigned_names(alloc, assigns)?;
        match NameSet::of(alloc, names.as_slice())? {
            Some(assigned) => Ok(
                self.are_assignable(assigns) && has_each(&assigned, Target::Assigned, module),
            ),
            None => Ok(false),
        }
    }

    fn are_assignable(&self, assigns: &[Assign]) -> bool
        ensures { result ≡ list_all (λ assign. is_of is_assignable (sort_under self.now) assign.name) assigns.now }
    {
        assigns
            .iter()
            .all(|assign| self.is_assignable(&assign.name))
    }

    fn is_assignable(&self, name: &Name) -> bool
        ensures { result ≡ is_of is_assignable (sort_under self.now) name.now }
    {
        matches!(self.sort(name), Some(Sort::Wire | Sort::Output))
    }
}

/// The names that assigns give numbers, in order.
pub fn assigned_names(alloc: Global, assigns: &[Assign]) -> Result<Vec<&str>, Memory>
    ensures { IfOk result (λ names. map (λ name. name.now) names.items ≡ map (λ assign. assign.name) assigns.now) }
{
    let mut names = Vec::with_capacity(alloc, assigns.len())?;
    for assign in assigns {
        names.push(assign.name.as_str())?;
    }
    Ok(names)
}

/// The names that statements store into, in order.
pub fn stored_names(alloc: Global, stmts: &[Stmt]) -> Result<Vec<&str>, Memory>
    ensures { IfOk result (λ names. map (λ name. name.now) names.items ≡ map stored_name stmts.now) }
{
    let mut names = Vec::with_capacity(alloc, stmts.len())?;
    for stmt in stmts {
        names.push(stored_name(stmt))?;
    }
    Ok(names)
}

fn stored_name(stmt: &Stmt) -> &str
    ensures { result.now ≡ stored_name stmt.now }
{
    match stmt {
        Stmt::Store { name, .. } | Stmt::StoreIf { name, .. } => name.as_str(),
    }
}

/// The names of memories that are filled, in order.
pub fn filled_names(alloc: Global, fills: &[Fill]) -> Result<Vec<&str>, Memory>
    ensures { IfOk result (λ names. map (λ name. name.now) names.items ≡ map (λ fill. fill.name) fills.now) }
{
    let mut names = Vec::with_capacity(alloc, fills.len())?;
    for fill in fills {
        names.push(fill.name.as_str())?;
    }
    Ok(names)
}
