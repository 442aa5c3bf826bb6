//! The first two drivers of each net.

ghost use Rattle.std.specs.Prelude.{◌≡◌, ◌<◌, vec_len, map, slice_set, slice_index_or, IfOk};
ghost use Rattle.std.specs.List.{range_with_len};
ghost use Rattle.lg_netlist.specs.Drivers.{first_driver};
ghost use Rattle.lg_netlist.specs.FirstTwo.{AreFirstTwo, no_driver, with_driver};

use crate::drivers::Driver;
use crate::netlist::Netlist;
use std::alloc::{AllocError, Global};

/// The first two drivers of a net, where it has so many.
#[derive(Clone, Copy, Debug)]
pub struct FirstTwo {
    pub first: Option<Driver>,
    pub second: Option<Driver>,
}

// The first two drivers of each net, net by net.
pub fn first_two(alloc: Global, netlist: &Netlist) -> Result<Vec<FirstTwo>, AllocError>
    ensures { IfOk result (λ twos. AreFirstTwo netlist.now twos.items) }
{
    let none = FirstTwo {
        first: None,
        second: None,
    };
    let mut twos = vec![in alloc; none; netlist.nets as usize]?;
    for (net, driver) in &netlist.all_drivers(alloc)? {
        note(&mut twos, *net as usize, *driver);
    }
    Ok(twos)
}

impl Netlist {
    /// The first driver of each net, net by net, where it has one.
    pub fn first_drivers(&self, alloc: Global) -> Result<Vec<Option<Driver>>, AllocError>
        ensures { IfOk result (λ found. found.items ≡ map (first_driver self.now) (range_with_len 0 self.now.nets)) }
    {
        let twos = first_two(alloc, self)?;
        let mut found = Vec::with_capacity(alloc, twos.len())?;
        for two in &twos {
            found.push(two.first)?;
        }
        Ok(found)
    }
}

fn note(twos: &mut Vec<FirstTwo>, net: usize, driver: Driver)
    requires { net < vec_len twos.old }
    ensures { twos.new.items ≡ slice_set twos.old.items net
        (with_driver (slice_index_or twos.old.items net no_driver) driver) }
{
    let two = twos[net];
    twos[net] = match (two.first, two.second) {
        (None, _) => FirstTwo {
            first: Some(driver),
            second: two.second,
        },
        (Some(_), None) => FirstTwo {
            first: two.first,
            second: Some(driver),
        },
        (Some(_), Some(_)) => two,
    };
}
