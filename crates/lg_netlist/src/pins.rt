//! The pins that a row gives words to, and those that it is read from.

ghost use Rattle.std.specs.Prelude.{◌≡◌, ◌↔◌, map, Some, IsTrue, IfOk};
ghost use Rattle.lg_netlist.specs.Static.{data_pins, input_pins, output_pins};

use crate::netlist::{Netlist, PinUse};
use std::alloc::{AllocError, Global};

impl Netlist {
    /// The input pins but for the clock pin, in order.
    pub fn input_pins(&self, alloc: Global) -> Result<Vec<&PinUse>, AllocError>
        ensures { IfOk result (λ pins. map (λ p. p.now) pins.items ≡ input_pins self.now) }
    {
        let mut pins = self.data_pins(alloc)?;
        pins.retain(|pin| pin.input);
        Ok(pins)
    }

    /// The output pins, in order.
    pub fn output_pins(&self, alloc: Global) -> Result<Vec<&PinUse>, AllocError>
        ensures { IfOk result (λ pins. map (λ p. p.now) pins.items ≡ output_pins self.now) }
    {
        let mut pins = self.data_pins(alloc)?;
        pins.retain(|pin| !pin.input);
        Ok(pins)
    }

    fn data_pins(&self, alloc: Global) -> Result<Vec<&PinUse>, AllocError>
        ensures { IfOk result (λ pins. map (λ p. p.now) pins.items ≡ data_pins self.now) }
    {
        let mut pins = Vec::new(alloc);
        for (index, pin) in self.pins.as_slice().iter().enumerate() {
            if !is_clock(self.clock_pin, index) {
                pins.push(pin)?;
            }
        }
        Ok(pins)
    }
}

fn is_clock(clock_pin: Option<u32>, index: usize) -> bool
    ensures { IsTrue result ↔ (clock_pin ≡ Some index) }
{
    clock_pin.is_some_and(|clock| clock as usize == index)
}
