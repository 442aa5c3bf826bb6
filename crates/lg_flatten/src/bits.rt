//! Which ports take a net, and the net bits of each port.

ghost use Rattle.std.specs.Prelude.{◌≡◌, ◌+◌, ◌*◌, ◌<◌, ◌^◌, ◌++◌, length, map, min, if◌then◌else◌, IfOk, OnOk};
ghost use Rattle.std.specs.List.{flat_map, zip};
ghost use Rattle.lg_flatten.specs.Uses.{port_points, AreFit};
ghost use Rattle.lg_flatten.specs.Flat.{takes_net, take_nets, flagged, by_port, ArePortBits};

use crate::places::{port_count, ports};
use crate::role::Role;
use lg_circ::{Comp, Wire};
use lg_names::numbered;
use lg_nets::sheet_nets;
use sqlite_items::Items;
use std::alloc::{AllocError, Global};

/// The net bits of the ports of the components, in file order, and how many nets there are.
pub fn port_bits(
    alloc: Global,
    wires: &[Wire],
    comps: &[Comp],
    roles: &[Role],
) -> Result<(Items<Items<u32>>, u32), AllocError>
    requires few { 3 * length comps.now + 2 * length wires.now < 2 ^ 32 }
    requires fit { AreFit comps.now roles.now }
    ensures { IfOk result (λ found. ArePortBits wires.now (zip comps.now roles.now) found.0 found.1) }
{
    let points = ports(alloc, comps, roles)?;
    let places = points.as_slice();
    let joined = sheet_nets(alloc, wires, places)?;
    let attached = joined.attached.as_slice();
    let labels = joined.labels.as_slice();
    let takes = take_nets(alloc, comps, roles, attached)?;
    let flags = takes.as_slice();
    let taken = flagged(alloc, flags, labels)?;
    let kept = taken.as_slice();
    let (nets, count) = numbered(alloc, kept, places.len())?;
    let numbers = nets.as_slice();
    let bits = by_port(alloc, flags, numbers)?;
    Ok((bits, count))
}

// Which of the ports of the components take a net, where this is attached.
fn take_nets(
    alloc: Global,
    comps: &[Comp],
    roles: &[Role],
    attached: &[bool],
) -> Result<Vec<bool>, AllocError>
    requires { length attached.now ≡ length (flat_map port_points (zip comps.now roles.now)) }
    ensures { IfOk result (λ takes. takes.items ≡ take_nets (zip comps.now roles.now) attached.now) }
{
    let mut takes = Vec::with_capacity(alloc, attached.len())?;
    let mut rest = attached;
    for (_comp, role) in comps.iter().zip(roles) {
        let (own, after) = rest.split_at(port_count(*role));
        put_takes(&mut takes, *role, own)?;
        rest = after;
    }
    Ok(takes)
}

fn put_takes(takes: &mut Vec<bool>, role: Role, attached: &[bool]) -> Result<(), AllocError>
    ensures { OnOk result (takes.new.items ≡ takes.old.items ++ map (takes_net role) attached.now) }
{
    for flag in attached {
        takes.push(takes_net(role, *flag))?;
    }
    Ok(())
}

fn takes_net(role: Role, attached: bool) -> bool
    ensures { result ≡ takes_net role attached }
{
    match role {
        Role::Pin { .. } => true,
        Role::Gate { .. } => attached,
    }
}

// The labels at whose place the flag is true.
fn flagged(alloc: Global, flags: &[bool], labels: &[u32]) -> Result<Vec<u32>, AllocError>
    ensures { IfOk result (λ found. found.items ≡ flagged flags.now labels.now) }
{
    let mut found = Vec::new(alloc);
    for (flag, label) in flags.iter().zip(labels) {
        if *flag {
            found.push(*label)?;
        }
    }
    Ok(found)
}

// The net bits of each port: the next of the nets where the port takes one, and else none.
fn by_port(alloc: Global, takes: &[bool], nets: &[u32]) -> Result<Items<Items<u32>>, AllocError>
    ensures { IfOk result (λ ports. ports ≡ by_port takes.now nets.now) }
{
    let mut ports = Items::new(alloc);
    let mut rest = nets;
    for flag in takes {
        let (own, after) = rest.split_at(own_count(*flag, rest.len()));
        ports.push(Items::from_slice(alloc, own)?)?;
        rest = after;
    }
    Ok(ports)
}

// How many of the nets that are left a port takes: none or one.
fn own_count(takes: bool, left: usize) -> usize
    ensures { result ≡ min (if takes then 1 else 0) left }
{
    if takes && left > 0 { 1 } else { 0 }
}
