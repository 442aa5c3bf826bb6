//! What drives the nets of a netlist.

ghost use Rattle.std.specs.Prelude.{◌≡◌, ◌<◌, ◌++◌, ◌^◌, map, length, All, IfOk, OnOk};
ghost use Rattle.std.specs.List.{flat_map};
ghost use Rattle.lg_netlist.specs.Drivers.{numbered, output_drivers, part_drivers, pin_drivers, clock_driver, all_drivers, drivers};
ghost use Rattle.lg_netlist.specs.Valid.{IsFittingPart, IsFittingPin};

use crate::netlist::{Netlist, PartUse, PinUse};
use lg_text::Text;
use sqlite_items::Items;
use std::alloc::{AllocError, Global};

/// What drives a net: a bit of an output of a part, a bit of an input pin, or a clock. Parts, pins and clocks are numbered as
/// in the netlist, bits from the lowest.
#[derive(Clone, Copy, Debug, PartialEq, Eq)]
pub enum Driver {
    Part { part: u32, output: u32, bit: u32 },
    Pin { pin: u32, bit: u32 },
    Clock { clock: u32 },
}

impl Netlist {
    /// The drivers of a net: outputs of parts, then input pins, then clocks, each by rising numbers. A bit of an output
    /// counts for each time that it stands on the net.
    pub fn drivers(&self, alloc: Global, net: u32) -> Result<Vec<Driver>, AllocError>
        ensures { IfOk result (λ found. found.items ≡ drivers self.now net) }
    {
        let all = self.all_drivers(alloc)?;
        let mut found = Vec::new(alloc);
        for (on, driver) in &all {
            if *on == net {
                found.push(*driver)?;
            }
        }
        Ok(found)
    }

    /// All drivers, each with its net, in the order of `drivers`.
    pub(crate) fn all_drivers(&self, alloc: Global) -> Result<Vec<(u32, Driver)>, AllocError>
        ensures { IfOk result (λ found. found.items ≡ all_drivers self.now) }
    {
        let mut found = Vec::new(alloc);
        for (part, used) in self.parts.as_slice().iter().enumerate() {
            put_part(&mut found, part as u32, used)?;
        }
        for (pin, used) in self.pins.as_slice().iter().enumerate() {
            put_pin(&mut found, pin as u32, used)?;
        }
        for (clock, (net, _)) in self.clocks.as_slice().iter().enumerate() {
            let clock = clock as u32;
            found.push((*net, Driver::Clock { clock }))?;
        }
        Ok(found)
    }
}

fn put_part(found: &mut Vec<(u32, Driver)>, part: u32, used: &PartUse) -> Result<(), AllocError>
    requires few { length used.now.outputs < 2 ^ 32 }
    requires narrow { All (λ bits. length bits < 2 ^ 32) used.now.outputs }
    ensures { OnOk result (found.new.items ≡ found.old.items ++ part_drivers (part, used.now)) }
{
    for (output, bits) in used.outputs.as_slice().iter().enumerate() {
        put_output(found, part, output as u32, bits.as_slice())?;
    }
    Ok(())
}

fn put_output(
    found: &mut Vec<(u32, Driver)>,
    part: u32,
    output: u32,
    bits: &[u32],
) -> Result<(), AllocError>
    requires narrow { length bits.now < 2 ^ 32 }
    ensures { OnOk result (found.new.items ≡ found.old.items ++ output_drivers part (output, bits.now)) }
{
    for (bit, net) in bits.iter().enumerate() {
        let bit = bit as u32;
        found.push((*net, Driver::Part { part, output, bit }))?;
    }
    Ok(())
}

fn put_pin(found: &mut Vec<(u32, Driver)>, pin: u32, used: &PinUse) -> Result<(), AllocError>
    requires narrow { length used.now.bits < 2 ^ 32 }
    ensures { OnOk result (found.new.items ≡ found.old.items ++ pin_drivers (pin, used.now)) }
{
    if used.input {
        for (bit, net) in used.bits.as_slice().iter().enumerate() {
            let bit = bit as u32;
            found.push((*net, Driver::Pin { pin, bit }))?;
        }
    }
    Ok(())
}
