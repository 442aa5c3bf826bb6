//! The outputs of parts in an order in which each comes after those that it reads.

ghost use Rattle.std.specs.Prelude.{◌≡◌, ◌+◌, ◌<◌, ◌≤◌, ◌^◌, ℕ, [], ◌++◌, length, vec_len, replicate, All, IfOk, OnOk, IsErrOf};
ghost use Rattle.lg_netlist.specs.Chain.{IsOutput, IsOrder, IsFirstOnCycle};
ghost use Rattle.lg_netlist.specs.declared.order.OrderFault.TheVariants as fault;
ghost use Rattle.lg_netlist.specs.Graph.{all_outputs, part_outputs, part_of, bits_of, read_nets, with_arrows, net_graph, outputs_among, IsFirstMarked};
ghost use Rattle.lg_netlist.specs.Valid.{AreNets, IsFittingPart};

use crate::netlist::{Netlist, PartUse};
use sqlite_items::Items;
use std::alloc::{AllocError, Global};

/// Why the outputs of a netlist have no order.
#[derive(Clone, Copy, Debug, PartialEq, Eq)]
pub enum OrderFault {
    /// A chain returns to its start; the first part that has an output on such a chain.
    Cycle { part: u32 },
    /// There was no memory.
    Memory,
}

impl From<AllocError> for OrderFault {
    ghost from_gives = { λ _ e. e ≡ fault.Memory };

    fn from(_e: AllocError) -> OrderFault {
        OrderFault::Memory
    }
}

impl Netlist {
    /// All pairs of a part and one of its outputs, each once and after those that it reads; or the first part with an output
    /// from which a chain leads back to it. It does not recurse.
    pub fn order(&self, alloc: Global) -> Result<Vec<(u32, u32)>, OrderFault>
        ensures order { IfOk result (λ found. IsOrder self.now found.items) }
        ensures cycle { (part : ℕ) → IsErrOf result (OrderFault.Cycle part) → IsFirstOnCycle self.now part }
    {
        let outputs = self.outputs(alloc)?;
        let graph = self.net_graph(alloc, outputs.as_slice())?;
        let sorted = lg_graph::sort(alloc, graph.as_slice())?;
        let nets = self.nets as usize;
        if let Some(part) = first_marked(outputs.as_slice(), sorted.cyclic.as_slice(), nets) {
            return Err(OrderFault::Cycle { part });
        }
        Ok(in_order(alloc, outputs.as_slice(), sorted.order.as_slice(), nets)?)
    }

    // All pairs of a part and one of its outputs.
    fn outputs(&self, alloc: Global) -> Result<Vec<(u32, u32)>, AllocError>
        ensures { IfOk result (λ found. found.items ≡ all_outputs self.now) }
    {
        let mut found = Vec::new(alloc);
        for (part, used) in self.parts.as_slice().iter().enumerate() {
            put_outputs(&mut found, part as u32, used)?;
        }
        Ok(found)
    }

    // The nets, and behind them the outputs, as one graph: an output leads to each net that it reads, and a net to each
    // output that drives it.
    fn net_graph(
        &self,
        alloc: Global,
        outputs: &[(u32, u32)],
    ) -> Result<Vec<Items<usize>>, AllocError>
        requires { outputs.now ≡ all_outputs self.now }
        ensures { IfOk result (λ graph. graph.items ≡ net_graph self.now) }
    {
        let mut graph = no_arrows(alloc, self.nets as usize)?;
        let nets = self.nets as usize;
        for (number, output) in outputs.iter().enumerate() {
            put_driven(&mut graph, nets + number, self.bits_of(*output))?;
        }
        for output in outputs {
            graph.push(read_nets(alloc, self.part_of(*output), output.1)?)?;
        }
        Ok(graph)
    }

    // The net bits of an output.
    pub(crate) fn bits_of(&self, output: (u32, u32)) -> &[u32]
        requires { IsOutput self.now output }
        ensures value { result.now ≡ bits_of self.now.parts output }
        ensures within { AreNets self.now.nets result.now }
    {
        self.part_of(output).outputs.as_slice()[output.1 as usize].as_slice()
    }

    // The part of an output.
    pub(crate) fn part_of(&self, output: (u32, u32)) -> &PartUse
        requires { IsOutput self.now output }
        ensures value { result.now ≡ part_of self.now.parts output }
        ensures fits { IsFittingPart self.now.nets result.now }
    {
        &self.parts.as_slice()[output.0 as usize]
    }
}

fn put_outputs(found: &mut Vec<(u32, u32)>, part: u32, used: &PartUse) -> Result<(), AllocError>
    requires { length used.now.outputs < 2 ^ 32 }
    ensures { OnOk result (found.new.items ≡ found.old.items ++ part_outputs (part, used.now)) }
{
    for (output, _) in used.outputs.as_slice().iter().enumerate() {
        found.push((part, output as u32))?;
    }
    Ok(())
}

// So many nodes without arrows.
fn no_arrows(alloc: Global, nodes: usize) -> Result<Vec<Items<usize>>, AllocError>
    ensures { IfOk result (λ graph. graph.items ≡ replicate nodes []) }
{
    let mut graph = Vec::with_capacity(alloc, nodes)?;
    for _ in 0..nodes {
        graph.push(Items::new(alloc))?;
    }
    Ok(graph)
}

// Adds an arrow to a node from each of these nets.
fn put_driven(graph: &mut Vec<Items<usize>>, node: usize, bits: &[u32]) -> Result<(), AllocError>
    requires { AreNets (vec_len graph.old) bits.now }
    ensures { OnOk result (graph.new.items ≡ with_arrows node bits.now graph.old.items) }
{
    for net in bits {
        graph[*net as usize].push(node)?;
    }
    Ok(())
}

// The nets that an output of a part reads.
fn read_nets(alloc: Global, part: &PartUse, output: u32) -> Result<Items<usize>, AllocError>
    requires { length part.now.inputs < 2 ^ 32 }
    ensures { IfOk result (λ nets. nets ≡ read_nets part.now output) }
{
    let mut nets = Items::new(alloc);
    for (input, bits) in part.inputs.as_slice().iter().enumerate() {
        if part.cell.reads(output, input as u32) {
            put_nets(&mut nets, bits.as_slice())?;
        }
    }
    Ok(nets)
}

fn put_nets(nets: &mut Items<usize>, bits: &[u32]) -> Result<(), AllocError>
    ensures { OnOk result (nets.new ≡ nets.old ++ bits.now) }
{
    for net in bits {
        nets.push(*net as usize)?;
    }
    Ok(())
}

// The part of the first output whose node is marked.
fn first_marked(outputs: &[(u32, u32)], marks: &[bool], nets: usize) -> Option<u32>
    requires { nets + length outputs.now ≤ length marks.now }
    ensures { IsFirstMarked nets outputs.now marks.now result }
{
    for (number, (part, _)) in outputs.iter().enumerate() {
        if marks[nets + number] {
            return Some(*part);
        }
    }
    None
}

// The outputs among the nodes.
fn in_order(
    alloc: Global,
    outputs: &[(u32, u32)],
    nodes: &[usize],
    nets: usize,
) -> Result<Vec<(u32, u32)>, AllocError>
    requires { All (λ node. node < nets + length outputs.now) nodes.now }
    ensures { IfOk result (λ found. found.items ≡ outputs_among nets outputs.now nodes.now) }
{
    let mut found = Vec::new(alloc);
    for node in nodes {
        if *node >= nets {
            found.push(outputs[*node - nets])?;
        }
    }
    Ok(found)
}
