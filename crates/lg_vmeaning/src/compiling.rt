//! Modules made ready to run.

ghost use Rattle.std.specs.Prelude.{◌≡◌, ◌<◌, ◌++◌, All, length, map, filter_map, slice_get, None, Some, IfOk};
ghost use Rattle.lg_vrules.specs.Known.{IsIndex, AreNarrow};
ghost use Rattle.lg_vrules.specs.Order.{IsOrder};
ghost use Rattle.lg_vrules.specs.Indexes.{index_under};
ghost use Rattle.lg_vrules.specs.Rules.{first_broken};
ghost use Rattle.lg_vrules.specs.Things.{is_input, is_output};
ghost use Rattle.lg_vresolve.specs.Resolved.{index_or_0};
ghost use Rattle.lg_vmeaning.specs.Ports.{port_lines};
ghost use Rattle.lg_vmeaning.specs.Compiled.{machine_of};
ghost use Rattle.lg_vmeaning.specs.ByName.{term_by};

use crate::kept_names::{Storage, kept_names};
use crate::ports::PortLine;
use crate::stores::Stores;
use lg_vmachine::{Machine, Term};
use lg_vresolve::Resolver;
use lg_vrules::{Indexes, NameIndex, stmts, stored_names};
use lg_vtree::{Assign, Memory, Module};
use sqlite_items::Items;
use std::alloc::Global;

/// What a module computes, where its assigns stand in this order, and its ports are these.
pub fn machine_of(
    alloc: Global,
    module: &Module,
    names: &NameIndex,
    order: &[usize],
    inputs: &[PortLine],
    outputs: &[PortLine],
) -> Result<Machine, Memory>
    requires rules { first_broken «module».now ≡ None }
    requires order { IsOrder «module».now order.now }
    requires names { IsIndex «module».now (Some names.now) }
    requires narrow { AreNarrow names.now }
    requires inputs { inputs.now ≡ port_lines is_input «module».now }
    requires outputs { outputs.now ≡ port_lines is_output «module».now }
    ensures { IfOk result (λ machine. machine ≡ machine_of «module».now order.now) }
{
    let assigns = module.assigns.as_slice();
    let registers = kept_names(alloc, module, Storage::Register)?;
    let memories = kept_names(alloc, module, Storage::Memory)?;
    let known = known_names(alloc, inputs, registers.as_slice(), assigns, order)?;
    let numbers = Indexes::of(alloc, known.as_slice())?;
    let words = Indexes::of(alloc, memories.as_slice())?;
    let stored = stored_names(alloc, stmts(module))?;
    let stmt_indexes = Indexes::of(alloc, stored.as_slice())?;
    let resolver = Resolver {
        names,
        numbers: &numbers,
        memories: &words,
    };
    let stores = Stores {
        resolver,
        stmts: stmts(module),
        indexes: &stmt_indexes,
    };
    Ok(Machine {
        equations: equations(alloc, &resolver, assigns, order)?,
        outputs: indexes(alloc, &numbers, outputs)?,
        registers: stores.nexts(alloc, registers.as_slice())?,
        memories: stores.writes(alloc, memories.as_slice())?,
    })
}

// The names in the order of their numbers: inputs, registers, and what the assigns in order give.
fn known_names<'a>(
    alloc: Global,
    inputs: &'a [PortLine],
    registers: &[&'a str],
    assigns: &'a [Assign],
    order: &[usize],
) -> Result<Vec<&'a str>, Memory>
    requires { All (λ index. index < length assigns.now) order.now }
    ensures { IfOk result (λ names. map (λ name. name.now) names.items ≡ map (λ line. line.name) inputs.now ++ map (λ name. name.now) registers.now ++ map (λ assign. assign.name) (filter_map (slice_get assigns.now) order.now)) }
{
    let mut names = Vec::new(alloc);
    for line in inputs {
        names.push(line.name.as_str())?;
    }
    for name in registers {
        names.push(*name)?;
    }
    for index in order {
        names.push(assigns[*index].name.as_str())?;
    }
    Ok(names)
}

// The terms of what assigns give, in order.
fn equations(
    alloc: Global,
    resolver: &Resolver,
    assigns: &[Assign],
    order: &[usize],
) -> Result<Items<Term>, Memory>
    requires indexes { All (λ index. index < length assigns.now) order.now }
    requires narrow { AreNarrow resolver.now.names.now }
    ensures { IfOk result (λ terms. terms ≡ map (λ assign. term_by resolver.now assign.value) (filter_map (slice_get assigns.now) order.now)) }
{
    let mut terms = Items::new(alloc);
    for index in order {
        terms.push(resolver.resolve(alloc, &assigns[*index].value)?.term)?;
    }
    Ok(terms)
}

// The indexes of ports.
fn indexes(alloc: Global, numbers: &Indexes, lines: &[PortLine]) -> Result<Items<usize>, Memory>
    ensures { IfOk result (λ indexes. indexes ≡ map (λ line. index_or_0 (index_under numbers.now) line.name) lines.now) }
{
    let mut indexes = Items::new(alloc);
    for line in lines {
        indexes.push(numbers.get(line.name.as_str()).unwrap_or(0))?;
    }
    Ok(indexes)
}
