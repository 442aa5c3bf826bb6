//! Labels of joined ports, and whether anything is attached to a port.

ghost use Rattle.std.specs.Prelude.{◌≡◌, ◌<◌, ◌≤◌, ◌^◌, ◌+◌, ◌*◌, ℕ, true, length, IfOk, slice_index, slice_set};
ghost use Rattle.lg_nets.specs.Joined.{AreLabels, AreAttached};
ghost use Rattle.lg_nets.specs.Shares.{AreShared, PortShares, WireShares, Marks};

use crate::components::components;
use crate::rays::{rays, transposed};
use crate::rows::row_links;
use lg_circ::{Point, Wire};
use std::alloc::{AllocError, Global};

/// What a sheet joins: for each of its ports, in order, a label and whether anything is attached to it.
#[derive(Debug, Drop)]
pub struct SheetNets {
    /// Two ports have one label exactly where they are joined.
    pub labels: Vec<u32>,
    /// Whether a wire or another port lies at the port's point.
    pub attached: Vec<bool>,
}

/// What the wires of a sheet join, in time n log n in wires and ports. Wires that only cross are not joined, and a wire that
/// is neither level nor upright joins nothing.
pub fn sheet_nets(alloc: Global, wires: &[Wire], ports: &[Point]) -> Result<SheetNets, AllocError>
    requires few { length ports.now + 2 * length wires.now < 2 ^ 32 }
    ensures labels { IfOk result (λ nets. AreLabels wires.now ports.now nets.labels.items) }
    ensures attached { IfOk result (λ nets. AreAttached wires.now ports.now nets.attached.items) }
{
    let rays = rays(alloc, wires, ports)?;
    let mut links = row_links(alloc, &rays)?;
    let turned = transposed(alloc, &rays)?;
    let columns = row_links(alloc, &turned)?;
    links.extend_from_slice(&columns)?;
    let mut labels = components(alloc, rays.len(), &links)?;
    let attached = attached(alloc, wires, ports.len(), &labels)?;
    labels.truncate(ports.len());
    Ok(SheetNets { labels, attached })
}

// Labels are those of the ports, and then those of the wires.
fn attached(
    alloc: Global,
    wires: &[Wire],
    ports: usize,
    labels: &[u32],
) -> Result<Vec<bool>, AllocError>
    requires long { ports + length wires.now ≤ length labels.now }
    requires least { (i : ℕ) → i < ports → slice_index labels.now i ≤ i }
    ensures { IfOk result (λ flags. AreShared wires.now ports labels.now flags.items) }
{
    let (port_labels, wire_labels) = labels.split_at(ports);
    let mut shared = vec![in alloc; false; ports]?;
    share_ports(&mut shared, port_labels);
    share_wires(&mut shared, wires, wire_labels);
    let mut flags = Vec::with_capacity(alloc, ports)?;
    for label in port_labels {
        flags.push(shared[*label as usize])?;
    }
    Ok(flags)
}

fn share_ports(shared: &mut [bool], labels: &[u32])
    ensures { Marks shared.old shared.new (PortShares labels.now (length labels.now)) }
{
    for (port, label) in labels.iter().enumerate() {
        if *label as usize != port {
            mark(shared, *label);
        }
    }
}

fn share_wires(shared: &mut [bool], wires: &[Wire], labels: &[u32])
    requires { length wires.now ≤ length labels.now }
    ensures { Marks shared.old shared.new (WireShares wires.now labels.now (length wires.now)) }
{
    for (place, wire) in wires.iter().enumerate() {
        if wire.is_straight() {
            mark(shared, labels[place]);
        }
    }
}

// A label past the end is none of a port.
fn mark(shared: &mut [bool], label: u32)
    ensures { shared.new ≡ slice_set shared.old label true }
{
    if (label as usize) < shared.len() {
        shared[label as usize] = true;
    }
}
