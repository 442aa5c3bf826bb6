//! The parts of a netlist.

ghost use Rattle.std.specs.Prelude.{◌≡◌, ◌≤◌, ◌++◌, length, IfOk, OnOk};
ghost use Rattle.std.specs.List.{flat_map, zip};
ghost use Rattle.lg_flatten.specs.Uses.{port_points, role_inputs};
ghost use Rattle.lg_flatten.specs.Flat.{role_part, parts_of};

use crate::labels::use_name;
use crate::places::{input_count, port_count};
use crate::role::Role;
use lg_circ::Comp;
use lg_netlist::PartUse;
use sqlite_items::Items;
use std::alloc::{AllocError, Global};

/// The parts that the components are, in file order, where their ports have these net bits.
pub fn parts(
    alloc: Global,
    circuit: &str,
    comps: &[Comp],
    roles: &[Role],
    ports: &[Items<u32>],
) -> Result<Items<PartUse>, AllocError>
    requires { length ports.now ≡ length (flat_map port_points (zip comps.now roles.now)) }
    ensures { IfOk result (λ parts. parts ≡ parts_of circuit.now (zip comps.now roles.now) ports.now) }
{
    let mut parts = Items::new(alloc);
    let mut rest = ports;
    for (comp, role) in comps.iter().zip(roles) {
        let (own, after) = rest.split_at(port_count(*role));
        put_part(alloc, &mut parts, circuit, comp, *role, own)?;
        rest = after;
    }
    Ok(parts)
}

fn put_part(
    alloc: Global,
    parts: &mut Items<PartUse>,
    circuit: &str,
    comp: &Comp,
    role: Role,
    ports: &[Items<u32>],
) -> Result<(), AllocError>
    requires { length (role_inputs comp.now.loc role) ≤ length ports.now }
    ensures { OnOk result (parts.new ≡
        parts.old ++ role_part circuit.now comp.now (length (role_inputs comp.now.loc role)) ports.now role) }
{
    if let Role::Gate { cell, .. } = role {
        let (inputs, outputs) = ports.split_at(input_count(role));
        parts.push(PartUse {
            name: use_name(alloc, circuit, comp)?,
            cell,
            inputs: copies(alloc, inputs)?,
            outputs: copies(alloc, outputs)?,
        })?;
    }
    Ok(())
}

fn copies(alloc: Global, ports: &[Items<u32>]) -> Result<Items<Items<u32>>, AllocError>
    ensures { IfOk result (λ copies. copies ≡ ports.now) }
{
    let mut copies = Items::new(alloc);
    for bits in ports {
        copies.push(Items::from_slice(alloc, bits.as_slice())?)?;
    }
    Ok(copies)
}
