//! The netlist of a sheet.

ghost use Rattle.std.specs.Prelude.{◌≡◌, ◌+◌, ◌*◌, ◌<◌, ◌^◌, length, IfOk};
ghost use Rattle.std.specs.List.{zip};
ghost use Rattle.lg_netlist.specs.declared.netlist.Netlist.{Netlist};
ghost use Rattle.lg_flatten.specs.Uses.{AreRoles};
ghost use Rattle.lg_flatten.specs.Flat.{IsNetlistOf};

use crate::bits::port_bits;
use crate::labels::labels;
use crate::parts::parts;
use crate::pins::pins;
use crate::role::Role;
use lg_circ::Sheet;
use lg_names::pin_names;
use lg_netlist::Netlist;
use lg_text::Text;
use sqlite_items::Items;
use std::alloc::{AllocError, Global};

/// The netlist of a sheet whose components are these, as `roles` gave them. It is the only one.
/// In time linear in components and wires, apart from finding the joined ports and naming the pins.
pub fn netlist(alloc: Global, sheet: &Sheet, roles: &[Role]) -> Result<Netlist, AllocError>
    requires few { 3 * length sheet.now.comps + 2 * length sheet.now.wires < 2 ^ 32 }
    requires known { AreRoles sheet.now.comps roles.now }
    ensures found { IfOk result (λ n. IsNetlistOf sheet.now (zip sheet.now.comps roles.now) n) }
    ensures only { IfOk result (λ n. (other : Netlist) → IsNetlistOf sheet.now (zip sheet.now.comps roles.now) other → other ≡ n) }
{
    let circuit = sheet.name.as_str();
    let comps = sheet.comps.as_slice();
    let wires = sheet.wires.as_slice();
    let (ports, count) = port_bits(alloc, wires, comps, roles)?;
    let bits = ports.as_slice();
    let labels = labels(alloc, comps, roles)?;
    let found = pin_names(alloc, labels.as_slice())?;
    let names = found.as_slice();
    Ok(Netlist {
        circuit: Text::copy_of(alloc, circuit)?,
        parts: parts(alloc, circuit, comps, roles, bits)?,
        pins: pins(alloc, circuit, names, comps, roles, bits)?,
        clocks: Items::new(alloc),
        nets: count,
        clock_pin: None,
    })
}
