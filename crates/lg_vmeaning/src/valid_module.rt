//! Modules that were tested.

ghost use Rattle.std.specs.Prelude.{◌≡◌, ℕ, List, None, Some, IfOk, is_some};
ghost use Rattle.lg_vrules.specs.Known.{IsIndex, AreNarrow};
ghost use Rattle.lg_vrules.specs.Order.{IsOrder};
ghost use Rattle.lg_vrules.specs.Things.{lines_of, is_input, is_output};
ghost use Rattle.lg_vmachine.specs.Kept.{Kept};
ghost use Rattle.lg_vresolve.specs.Meaning.{Valuation};
ghost use Rattle.lg_vmeaning.specs.Ports.{port_lines};
ghost use Rattle.lg_vmeaning.specs.Rows.{start};
ghost use Rattle.lg_vmeaning.specs.Solution.{AreNumbers, IsOf, IsTheSolution};
ghost use Rattle.lg_vmeaning.specs.Valid.{IsValid};

use crate::compiling::machine_of;
use crate::ports::{PortLine, port_lines};
use crate::starting::start;
use lg_vmachine::{Machine, Regs};
use lg_vrules::NameIndex;
use lg_vtree::{Direction, Memory, Module};
use sqlite_items::Items;
use std::alloc::Global;
use std::marker::Model;

/// A module that keeps the seven rules and in which nothing depends on itself. In a contract it is the module. Only `valid`
/// gives one.
#[derive(Drop)]
pub struct Valid {
    module: Module,
    // The indexes of the assigns, each after those that it reads.
    order: Items<usize>,
    inputs: Items<PortLine>,
    outputs: Items<PortLine>,
    pub(crate) machine: Machine,
}

impl Model for Valid {
    ghost use Rattle.lg_vtree.specs.declared.module.Module.{Module as Tree};
    ghost use Rattle.lg_vmeaning.specs.Compiled.{IsCompiled};
    ghost use Rattle.std.specs.Coded.{codes};
    ghost use Rattle.lg_vtree.specs.contracts.expr.Expr as e;

    ghost Value = { Tree };

    ghost coded = { Prim.hlevel (codes, e.the_row.coded) };

    ghost view = { λ v. v.«module» };

    ghost invariant = { λ v. IsCompiled v.«module» v.order v.inputs v.outputs v.machine };
}

impl Valid {
    // For `valid`, which has tested it.
    pub(crate) fn new(
        alloc: Global,
        module: Module,
        names: &NameIndex,
        order: Items<usize>,
    ) -> Result<Valid, Memory>
        requires valid { IsValid «module» }
        requires order { IsOrder «module» order }
        requires names { IsIndex «module» (Some names.now) }
        requires narrow { AreNarrow names.now }
        ensures { IfOk result (λ v. v ≡ «module») }
    {
        let inputs = port_lines(alloc, &module, Direction::Input)?;
        let outputs = port_lines(alloc, &module, Direction::Output)?;
        let machine = machine_of(
            alloc,
            &module,
            names,
            order.as_slice(),
            inputs.as_slice(),
            outputs.as_slice(),
        )?;
        Ok(Valid {
            module,
            order,
            inputs,
            outputs,
            machine,
        })
    }

    /// Whether the module has an edge.
    pub fn clocked(&self) -> bool
        ensures value { result ≡ is_some self.now.edge }
        ensures is_valid { IsValid self.now }
    {
        self.module.edge.is_some()
    }

    /// The inputs, without the clock, in order.
    pub fn inputs(&self) -> &[PortLine]
        ensures value { result.now ≡ port_lines is_input self.now }
        ensures is_valid { IsValid self.now }
    {
        self.inputs.as_slice()
    }

    /// The outputs, in order.
    pub fn outputs(&self) -> &[PortLine]
        ensures { result.now ≡ port_lines is_output self.now }
    {
        self.outputs.as_slice()
    }

    /// The indexes of the assigns in an order in which each stands after those that it reads. For registers, memories and
    /// inputs that fit, the module has exactly one solution.
    pub fn order(&self) -> &[usize]
        ensures order { IsOrder self.now result.now }
        ensures one_solution { (kept : Kept) (row : List ℕ) → IsOf self.now kept → AreNumbers (lines_of is_input self.now) row → (value : Valuation) × IsTheSolution self.now kept row value }
    {
        self.order.as_slice()
    }

    /// Registers and memories at the start, by the values that they are declared with and by the init.
    pub fn start(&self, alloc: Global) -> Result<Regs, Memory>
        ensures start { IfOk result (λ regs. regs ≡ start self.now) }
        ensures fits { IfOk result (IsOf self.now) }
    {
        start(alloc, &self.module)
    }
}
