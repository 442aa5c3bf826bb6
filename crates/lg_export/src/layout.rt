//! The module of a netlist, as a whole.

ghost use Rattle.std.specs.Prelude.{◌≡◌, ◌⊎◌, IfOk, IfErr, IsOk, IsTrue};
ghost use Rattle.std.specs.List.{flat_map};
ghost use Rattle.lg_netlist.specs.Static.{has_no_clock};
ghost use Rattle.lg_export.specs.Layout.{numbered, part_decls, module_ports, module_assigns, module_of};
ghost use Rattle.lg_netlist.specs.Acceptance.{IsAccepted, IsRefused};
ghost use Rattle.lg_netlist.specs.declared.acceptance.NotAccepted.TheVariants as refusal;
ghost use Rattle.lg_export.specs.Readable.{CanBeLaidOut};
ghost use Rattle.lg_export.specs.Agreement.{Agrees};
ghost use Rattle.lg_export.specs.InTime.{AgreesInTime};

use crate::bits::Wires;
use crate::names::{input_name, module_name, output_name};
use crate::parts::{put_assigns, put_decls};
use crate::ranges::range_of;
use lg_netlist::{Netlist, NotAccepted, PartUse};
use lg_vtree::{Assign, Decl, Direction, Module, Port};
use sqlite_items::Items;
use std::alloc::{AllocError, Global};

/// The module of a netlist that is accepted, and why another is not: a port `i_NAME` or `o_NAME` for each pin, a wire
/// `xP_I` at each attached input I and `wP_O` at each output O of part P, and an equation for each of these wires and for
/// each output port.
pub fn export(alloc: Global, netlist: &Netlist) -> Result<Module, NotAccepted>
    // So far: no clock.
    requires { IsTrue (has_no_clock netlist.now) }
    ensures accepted { IsOk result → IsAccepted netlist.now }
    ensures refused { IfErr result (λ fault. (fault ≡ refusal.Memory) ⊎ IsRefused netlist.now fault) }
    // Each part has its own wires and equations.
    ensures layout { IfOk result (λ m. m ≡ module_of netlist.now) }
    // The module is valid and has exactly one solution for all registers, memories and inputs that fit; on each list of rows
    // of defined inputs its outputs are those of the static rows.
    ensures agrees { IfOk result (λ m. Agrees netlist.now m) }
    // The netlist has one longest delay. Each list of such rows has exactly one session table, at each limit that is at least
    // this delay: no row oscillates, each settles within the delay, on the module's outputs.
    ensures in_time { IfOk result (λ m. AgreesInTime netlist.now m) }
{
    netlist.check_export(alloc)?;
    Ok(laid_out(alloc, netlist)?)
}

fn laid_out(alloc: Global, netlist: &Netlist) -> Result<Module, AllocError>
    requires { CanBeLaidOut netlist.now }
    ensures { IfOk result (λ m. m ≡ module_of netlist.now) }
{
    Ok(Module {
        name: module_name(alloc, netlist.circuit.as_str())?,
        ports: ports(alloc, netlist)?,
        decls: decls(alloc, netlist)?,
        init: None,
        assigns: assigns(alloc, netlist)?,
        edge: None,
    })
}

// The input pins, then the output pins.
fn ports(alloc: Global, netlist: &Netlist) -> Result<Items<Port>, AllocError>
    ensures { IfOk result (λ ports. ports ≡ module_ports netlist.now) }
{
    let mut ports = Items::new(alloc);
    let inputs = netlist.input_pins(alloc)?;
    for pin in &inputs {
        let name = input_name(alloc, pin)?;
        ports.push(Port {
            direction: Direction::Input,
            range: range_of(pin.bits.len() as u32),
            name,
        })?;
    }
    let outputs = netlist.output_pins(alloc)?;
    for pin in &outputs {
        let name = output_name(alloc, pin)?;
        ports.push(Port {
            direction: Direction::Output,
            range: range_of(pin.bits.len() as u32),
            name,
        })?;
    }
    Ok(ports)
}

fn decls(alloc: Global, netlist: &Netlist) -> Result<Items<Decl>, AllocError>
    ensures { IfOk result (λ decls. decls ≡ flat_map part_decls (numbered netlist.now.parts)) }
{
    let mut decls = Items::new(alloc);
    for (part, used) in netlist.parts.as_slice().iter().enumerate() {
        put_decls(alloc, &mut decls, part, used)?;
    }
    Ok(decls)
}

fn assigns(alloc: Global, netlist: &Netlist) -> Result<Items<Assign>, AllocError>
    requires { CanBeLaidOut netlist.now }
    ensures { IfOk result (λ assigns. assigns ≡ module_assigns netlist.now) }
{
    let wires = Wires::of(alloc, netlist)?;
    let mut assigns = Items::new(alloc);
    for (part, used) in netlist.parts.as_slice().iter().enumerate() {
        put_assigns(alloc, &mut assigns, &wires, part, used)?;
    }
    let outputs = netlist.output_pins(alloc)?;
    for pin in &outputs {
        let name = output_name(alloc, pin)?;
        let value = wires.bits_value(alloc, pin.bits.as_slice())?;
        assigns.push(Assign { name, value })?;
    }
    Ok(assigns)
}
