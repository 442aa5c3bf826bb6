//! The wires and the equations of a part.

ghost use Rattle.std.specs.Prelude.{◌≡◌, ◌<◌, ◌^◌, ◌++◌, length, IfOk, OnOk};
ghost use Rattle.lg_export.specs.Layout.{part_decls, part_assigns, first_of, joined, equation};
ghost use Rattle.lg_export.specs.Readable.{IsFed};
ghost use Rattle.lg_export.specs.Stack.{KnowsDrivers};

use crate::bits::Wires;
use crate::names::{input_wire, output_wire};
use crate::ranges::range_of;
use lg_netlist::{Cell, PartUse};
use lg_vtree::{Assign, Decl, Expr, Operator};
use sqlite_items::{Boxed, Items};
use std::alloc::{AllocError, Global};

// A wire for each attached input, and one for each output.
pub fn put_decls(
    alloc: Global,
    decls: &mut Items<Decl>,
    part: usize,
    used: &PartUse,
) -> Result<(), AllocError>
    requires few_inputs { length used.now.inputs < 2 ^ 32 }
    requires few_outputs { length used.now.outputs < 2 ^ 32 }
    ensures { OnOk result (decls.new ≡ decls.old ++ part_decls (part, used.now)) }
{
    for (input, bits) in used.inputs.as_slice().iter().enumerate() {
        if !bits.is_empty() {
            let name = input_wire(alloc, part, input)?;
            let range = range_of(used.cell.input_width(input as u32));
            decls.push(Decl::Wire { range, name })?;
        }
    }
    for output in 0..used.outputs.len() {
        let name = output_wire(alloc, part, output)?;
        let range = range_of(used.cell.output_width(output as u32));
        decls.push(Decl::Wire { range, name })?;
    }
    Ok(())
}

// An equation for each attached input, and the gate's.
pub fn put_assigns(
    alloc: Global,
    assigns: &mut Items<Assign>,
    wires: &Wires<'_>,
    part: usize,
    used: &PartUse,
) -> Result<(), AllocError>
    requires known { KnowsDrivers wires.now }
    requires fed { IsFed wires.now.netlist.now used.now }
    ensures { OnOk result (assigns.new ≡ assigns.old ++ part_assigns wires.now.netlist.now (part, used.now)) }
{
    let mut read = Vec::new(alloc);
    for (input, bits) in used.inputs.as_slice().iter().enumerate() {
        if !bits.is_empty() {
            let name = input_wire(alloc, part, input)?;
            let value = wires.bits_value(alloc, bits.as_slice())?;
            assigns.push(Assign { name, value })?;
            read.push(Expr::Whole(input_wire(alloc, part, input)?))?;
        }
    }
    let name = output_wire(alloc, part, 0)?;
    let value = equation(alloc, used.cell, read)?;
    assigns.push(Assign { name, value })
}

// What a gate says of its attached inputs.
fn equation(alloc: Global, cell: Cell, inputs: Vec<Expr>) -> Result<Expr, AllocError>
    requires { 0 < length inputs.items }
    ensures { IfOk result (λ value. value ≡ equation cell inputs.items) }
{
    match cell {
        Cell::Not => Ok(Expr::Not(Boxed::new(alloc, first_of(inputs))?)),
        Cell::And => joined(alloc, Operator::And, inputs),
        Cell::Or => joined(alloc, Operator::Or, inputs),
    }
}

fn first_of(mut inputs: Vec<Expr>) -> Expr
    requires { 0 < length inputs.items }
    ensures { result ≡ first_of inputs.items }
{
    inputs.swap_remove(0)
}

fn joined(alloc: Global, operator: Operator, mut inputs: Vec<Expr>) -> Result<Expr, AllocError>
    requires { 0 < length inputs.items }
    ensures { IfOk result (λ value. value ≡ joined operator inputs.items) }
{
    let mut value = inputs.remove(0);
    for input in inputs {
        let left = Boxed::new(alloc, value)?;
        value = Expr::Binary(left, operator, Boxed::new(alloc, input)?);
    }
    Ok(value)
}
