//! Which netlists can be exported.

ghost use Rattle.std.specs.Prelude.{◌≡◌, ◌⊎◌, IfOk, IfErr, IsOk};
ghost use Rattle.lg_netlist.specs.Drivers.{drivers, IsDriver};
ghost use Rattle.std.specs.List.{list_all, list_any};
ghost use Rattle.lg_netlist.specs.FirstTwo.{two_of, AreFirstTwo};
ghost use Rattle.lg_netlist.specs.Valid.{AreNets, IsFittingPart};
ghost use Rattle.lg_netlist.specs.declared.acceptance.NotAccepted.TheVariants as refusal;
ghost use Rattle.lg_netlist.specs.Acceptance.{IsRefused, IsAccepted, contested_by, many_drivers, undriven, undriven_part, reads_undriven, lacks_input, is_undriven, is_loose, driver_name};

use crate::cell::Loose;
use crate::drivers::Driver;
use crate::first_two::{FirstTwo, first_two};
use crate::netlist::{Netlist, PartUse};
use crate::order::OrderFault;
use lg_text::Text;
use sqlite_items::Items;
use std::alloc::{AllocError, Global};

/// Why a netlist cannot be exported.
#[derive(Debug, Drop)]
pub enum NotAccepted {
    /// A net has two drivers: the least such net, and its first two.
    ManyDrivers { net: u32, first: Text, second: Text },
    /// Nothing drives what an input of a part or an output pin reads: the first such part with its first such port, else
    /// the first such pin with the port `p`.
    Undriven { part: Text, port: Text },
    /// A chain returns to its start: the first part with an output on such a chain.
    Cycle { part: Text },
    /// There was no memory.
    Memory,
}

impl From<AllocError> for NotAccepted {
    ghost from_gives = { λ _ e. e ≡ refusal.Memory };

    fn from(_e: AllocError) -> NotAccepted {
        NotAccepted::Memory
    }
}

impl Netlist {
    /// Whether the netlist can be exported, and else why not: the first that holds of `ManyDrivers`, `Undriven` and `Cycle`.
    /// Clocks are not judged yet.
    pub fn check_export(&self, alloc: Global) -> Result<(), NotAccepted>
        ensures accepted { IsOk result → IsAccepted self.now }
        ensures refused { IfErr result (λ fault. (fault ≡ refusal.Memory) ⊎ IsRefused self.now fault) }
    {
        let twos = first_two(alloc, self)?;
        if let Some(fault) = self.many_drivers(alloc, twos.as_slice())? {
            return Err(fault);
        }
        if let Some(fault) = self.undriven(alloc, twos.as_slice())? {
            return Err(fault);
        }
        match self.order(alloc) {
            Ok(_) => Ok(()),
            Err(OrderFault::Cycle { part }) => {
                let part = Text::copy_of(
                    alloc,
                    self.parts.as_slice()[part as usize].name.as_str(),
                )?;
                Err(NotAccepted::Cycle { part })
            }
            Err(OrderFault::Memory) => Err(NotAccepted::Memory),
        }
    }

    // The least net with two drivers.
    fn many_drivers(
        &self,
        alloc: Global,
        twos: &[FirstTwo],
    ) -> Result<Option<NotAccepted>, AllocError>
        requires { AreFirstTwo self.now twos.now }
        ensures { IfOk result (λ said. said ≡ many_drivers self.now) }
    {
        for (net, two) in twos.iter().enumerate() {
            if let Some(fault) = self.contested(alloc, net as u32, *two)? {
                return Ok(Some(fault));
            }
        }
        Ok(None)
    }

    // What a net's first two drivers say of it.
    fn contested(
        &self,
        alloc: Global,
        net: u32,
        two: FirstTwo,
    ) -> Result<Option<NotAccepted>, AllocError>
        requires { two ≡ two_of (drivers self.now net) }
        ensures { IfOk result (λ said. said ≡ contested_by self.now net (drivers self.now net)) }
    {
        let Some(first) = two.first else {
            return Ok(None);
        };
        let Some(second) = two.second else {
            return Ok(None);
        };
        let first = self.driver_name(alloc, first)?;
        let second = self.driver_name(alloc, second)?;
        Ok(Some(NotAccepted::ManyDrivers { net, first, second }))
    }

    // The first part with an input that nothing drives, else the first such output pin.
    fn undriven(&self, alloc: Global, twos: &[FirstTwo]) -> Result<Option<NotAccepted>, AllocError>
        requires { AreFirstTwo self.now twos.now }
        ensures { IfOk result (λ said. said ≡ undriven self.now) }
    {
        for part in self.parts.as_slice() {
            if let Some(fault) = self.undriven_part(alloc, twos, part)? {
                return Ok(Some(fault));
            }
        }
        for pin in self.pins.as_slice() {
            if !pin.input && self.some_undriven(twos, pin.bits.as_slice()) {
                let part = Text::copy_of(alloc, pin.place.as_str())?;
                let port = Text::copy_of(alloc, "p")?;
                return Ok(Some(NotAccepted::Undriven { part, port }));
            }
        }
        Ok(None)
    }

    // The first input of a part that nothing drives.
    fn undriven_part(
        &self,
        alloc: Global,
        twos: &[FirstTwo],
        part: &PartUse,
    ) -> Result<Option<NotAccepted>, AllocError>
        requires twos { AreFirstTwo self.now twos.now }
        requires fits { IsFittingPart self.now.nets part.now }
        ensures { IfOk result (λ said. said ≡ undriven_part self.now part.now) }
    {
        for (input, bits) in part.inputs.as_slice().iter().enumerate() {
            if self.reads_undriven(twos, part, input as u32, bits.as_slice()) {
                let port = part.cell.input_name(alloc, input as u32)?;
                let part = Text::copy_of(alloc, part.name.as_str())?;
                return Ok(Some(NotAccepted::Undriven { part, port }));
            }
        }
        Ok(None)
    }

    fn reads_undriven(&self, twos: &[FirstTwo], part: &PartUse, input: u32, bits: &[u32]) -> bool
        requires twos { AreFirstTwo self.now twos.now }
        requires within { AreNets self.now.nets bits.now }
        ensures { result ≡ reads_undriven self.now part.now input bits.now }
    {
        if bits.is_empty() {
            lacks_input(part.cell.loose(input), part)
        } else {
            self.some_undriven(twos, bits)
        }
    }

    fn some_undriven(&self, twos: &[FirstTwo], bits: &[u32]) -> bool
        requires twos { AreFirstTwo self.now twos.now }
        requires within { AreNets self.now.nets bits.now }
        ensures { result ≡ list_any (is_undriven self.now) bits.now }
    {
        for net in bits {
            if twos[*net as usize].first.is_none() {
                return true;
            }
        }
        false
    }

    fn driver_name(&self, alloc: Global, driver: Driver) -> Result<Text, AllocError>
        requires { IsDriver self.now driver }
        ensures { IfOk result (λ name. name ≡ driver_name self.now driver) }
    {
        let name = match driver {
            Driver::Part { part, .. } => &self.parts.as_slice()[part as usize].name,
            Driver::Pin { pin, .. } => &self.pins.as_slice()[pin as usize].place,
            Driver::Clock { clock } => &self.clocks.as_slice()[clock as usize].1,
        };
        Text::copy_of(alloc, name.as_str())
    }
}

// Whether an input is missed where nothing is attached to it.
fn lacks_input(loose: Loose, part: &PartUse) -> bool
    ensures { result ≡ lacks_input loose part.now }
{
    match loose {
        Loose::Ignored => no_input_attached(part.inputs.as_slice()),
        Loose::Unknown => true,
        Loose::Zero | Loose::One => false,
    }
}

fn no_input_attached(inputs: &[Items<u32>]) -> bool
    ensures { result ≡ list_all is_loose inputs.now }
{
    inputs.iter().all(|bits| bits.len() == 0)
}
