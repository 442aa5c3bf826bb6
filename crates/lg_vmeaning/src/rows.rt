//! Modules run on rows.

ghost use Rattle.std.specs.Prelude.{◌≡◌, ◌↔◌, All, IsTrue, OnOk, OnErr, IfOk};
ghost use Rattle.lg_vrules.specs.Things.{lines_of, is_input};
ghost use Rattle.lg_vmeaning.specs.Rows.{start, IsAfterEdge, AreRows};
ghost use Rattle.lg_vmeaning.specs.Solution.{AreNumbers, IsOf, HasOutputs};
ghost use Rattle.lg_vmeaning.specs.Compiled.{IsStep};

use crate::ports::are_numbers;
use crate::valid_module::Valid;
use lg_vmachine::Regs;
use lg_vtree::Memory;
use sqlite_items::Items;
use std::alloc::Global;

impl Valid {
    /// Whether there is one number for each input, within its width: what the calls below ask of numbers.
    pub fn fits(&self, inputs: &[u64]) -> bool
        ensures { IsTrue result ↔ AreNumbers (lines_of is_input self.now) inputs.now }
    {
        are_numbers(self.inputs(), inputs)
    }

    /// Whether the numbers of each row fit.
    pub fn all_fit(&self, rows: &[Items<u64>]) -> bool
        ensures { IsTrue result ↔ All (AreNumbers (lines_of is_input self.now)) rows.now }
    {
        rows.iter().all(|row| self.fits(row.as_slice()))
    }

    /// The outputs in the one solution for these registers, memories and inputs.
    pub fn eval(&self, alloc: Global, regs: &Regs, inputs: &[u64]) -> Result<Vec<u64>, Memory>
        requires regs { IsOf self.now regs.now }
        requires inputs { AreNumbers (lines_of is_input self.now) inputs.now }
        ensures { IfOk result (λ outputs. HasOutputs self.now regs.now inputs.now outputs.items) }
    {
        let numbers = self.machine.solve(alloc, regs, inputs)?;
        self.machine.outputs(alloc, numbers.as_slice())
    }

    /// One edge of the module's kind: all that is stored is computed in the one solution. A module without an edge stores
    /// nothing. After an error all is as before.
    pub fn edge(&self, alloc: Global, regs: &mut Regs, inputs: &[u64]) -> Result<(), Memory>
        requires regs { IsOf self.now regs.old }
        requires inputs { AreNumbers (lines_of is_input self.now) inputs.now }
        ensures ok { OnOk result (IsAfterEdge self.now regs.old inputs.now regs.new) }
        ensures fits { IsOf self.now regs.new }
        ensures err { OnErr result (regs.new ≡ regs.old) }
    {
        let numbers = self.machine.solve(alloc, regs, inputs)?;
        self.machine.store(alloc, regs, numbers.as_slice())
    }

    /// The outputs of each row, from the start on: those of its solution, and then comes an edge.
    pub fn run_rows(&self, alloc: Global, rows: &[Items<u64>]) -> Result<Vec<Items<u64>>, Memory>
        requires { All (AreNumbers (lines_of is_input self.now)) rows.now }
        ensures { IfOk result (λ outs. AreRows self.now (start self.now) rows.now outs.items) }
    {
        let mut regs = self.start(alloc)?;
        let mut outs = Vec::with_capacity(alloc, rows.len())?;
        for row in rows {
            outs.push(Items::from_vec(self.step(alloc, &mut regs, row.as_slice())?))?;
        }
        Ok(outs)
    }

    // The outputs of a row, and then an edge.
    fn step(&self, alloc: Global, regs: &mut Regs, row: &[u64]) -> Result<Vec<u64>, Memory>
        requires regs { IsOf self.now regs.old }
        requires inputs { AreNumbers (lines_of is_input self.now) row.now }
        ensures { IfOk result (λ outputs. IsStep self.now regs.old row.now outputs.items regs.new) }
    {
        let numbers = self.machine.solve(alloc, regs, row)?;
        let outputs = self.machine.outputs(alloc, numbers.as_slice())?;
        self.machine.store(alloc, regs, numbers.as_slice())?;
        Ok(outputs)
    }
}
