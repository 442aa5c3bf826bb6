//! The longest chain.

ghost use Rattle.std.specs.Prelude.{◌≡◌, ◌≤◌, ◌+◌, ℕ, length, All, IfOk, IsErrOf};
ghost use Rattle.lg_netlist.specs.Chain.{IsFirstOnCycle, IsLongest};
ghost use Rattle.lg_netlist.specs.Graph.{read_nets};
ghost use Rattle.lg_netlist.specs.Longest.{latest, raised};
ghost use Rattle.lg_netlist.specs.Valid.{AreNets, IsFittingPart};

use crate::netlist::{Netlist, PartUse};
use crate::order::OrderFault;
use std::alloc::Global;

impl Netlist {
    /// The greatest sum of delays along a chain, in instants; 0 where there is no part with an output. Where a chain returns
    /// to its start it answers what `order` answers.
    pub fn longest(&self, alloc: Global) -> Result<u64, OrderFault>
        ensures longest { IfOk result (IsLongest self.now) }
        ensures cycle { (part : ℕ) → IsErrOf result (OrderFault.Cycle part) → IsFirstOnCycle self.now part }
    {
        let order = self.order(alloc)?;
        // For each net, the longest chain that ends on it so far.
        let mut arrivals = vec![in alloc; 0u64; self.nets as usize]?;
        let mut longest: u64 = 0;
        for output in &order {
            let part = self.part_of(*output);
            let arrival = arrival_at(arrivals.as_slice(), part, output.1);
            let delay = arrival + u64::from(part.cell.delay());
            raise(arrivals.as_mut_slice(), self.bits_of(*output), delay);
            longest = longest.max(delay);
        }
        Ok(longest)
    }
}

// The latest arrival on the nets that an output of a part reads.
fn arrival_at(arrivals: &[u64], part: &PartUse, output: u32) -> u64
    requires { IsFittingPart (length arrivals.now) part.now }
    ensures { result ≡ latest arrivals.now (read_nets part.now output) }
{
    let mut arrival = 0;
    for (input, bits) in part.inputs.as_slice().iter().enumerate() {
        if part.cell.reads(output, input as u32) {
            arrival = latest(arrivals, bits.as_slice()).max(arrival);
        }
    }
    arrival
}

// The latest arrival on some nets.
fn latest(arrivals: &[u64], nets: &[u32]) -> u64
    requires { AreNets (length arrivals.now) nets.now }
    ensures { result ≡ latest arrivals.now nets.now }
{
    let mut arrival = 0;
    for net in nets {
        arrival = arrivals[*net as usize].max(arrival);
    }
    arrival
}

// Raises the arrivals on some nets to a delay.
fn raise(arrivals: &mut [u64], nets: &[u32], delay: u64)
    requires { AreNets (length arrivals.old) nets.now }
    ensures { arrivals.new ≡ raised delay nets.now arrivals.old }
{
    for net in nets {
        arrivals[*net as usize] = arrivals[*net as usize].max(delay);
    }
}
