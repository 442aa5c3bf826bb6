//! The pins of a netlist.

ghost use Rattle.std.specs.Prelude.{◌≡◌, ◌++◌, length, IfOk, OnOk};
ghost use Rattle.std.specs.List.{flat_map, zip};
ghost use Rattle.lg_flatten.specs.Uses.{port_points};
ghost use Rattle.lg_flatten.specs.Flat.{role_pin, names_after, pins_of};

use crate::labels::use_name;
use crate::places::port_count;
use crate::role::Role;
use lg_circ::Comp;
use lg_netlist::PinUse;
use lg_text::Text;
use sqlite_items::Items;
use std::alloc::{AllocError, Global};

/// The pins that the components are, in file order, where their ports have these net bits and the pins these names.
pub fn pins(
    alloc: Global,
    circuit: &str,
    names: &[Text],
    comps: &[Comp],
    roles: &[Role],
    ports: &[Items<u32>],
) -> Result<Items<PinUse>, AllocError>
    requires { length ports.now ≡ length (flat_map port_points (zip comps.now roles.now)) }
    ensures { IfOk result (λ pins. pins ≡ pins_of circuit.now names.now (zip comps.now roles.now) ports.now) }
{
    let mut pins = Items::new(alloc);
    let mut names = names;
    let mut rest = ports;
    for (comp, role) in comps.iter().zip(roles) {
        let (own, after) = rest.split_at(port_count(*role));
        put_pin(alloc, &mut pins, circuit, comp, names, own, *role)?;
        names = names_after(*role, names);
        rest = after;
    }
    Ok(pins)
}

fn put_pin(
    alloc: Global,
    pins: &mut Items<PinUse>,
    circuit: &str,
    comp: &Comp,
    names: &[Text],
    ports: &[Items<u32>],
    role: Role,
) -> Result<(), AllocError>
    ensures { OnOk result (pins.new ≡ pins.old ++ role_pin circuit.now comp.now names.now ports.now role) }
{
    if let (Role::Pin { input }, [name, ..], [bits, ..]) = (role, names, ports) {
        pins.push(PinUse {
            name: Text::copy_of(alloc, name.as_str())?,
            place: use_name(alloc, circuit, comp)?,
            input,
            bits: Items::from_slice(alloc, bits.as_slice())?,
        })?;
    }
    Ok(())
}

// The names that are left for the pins after one component.
fn names_after(role: Role, names: &[Text]) -> &[Text]
    ensures { result.now ≡ names_after role names.now }
{
    match (role, names) {
        (Role::Pin { .. }, [_, others @ ..]) => others,
        _ => names,
    }
}
