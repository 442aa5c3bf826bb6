//! All nodes of a graph in order.

ghost use Rattle.std.specs.Prelude.{IfOk};
ghost use Rattle.lg_graph.specs.Graph.{IsGraph, IsSorted};

use crate::search::Search;
use sqlite_items::Items;
use std::alloc::{AllocError, Global};

/// The nodes of a graph in an order, and which of them are on cycles.
#[derive(Drop)]
pub struct Sorted {
    /// Each node once. Where an arrow leads from a node to one that does not stand before it, the two are on a cycle.
    pub order: Items<usize>,
    /// For each node, whether it is on a cycle: whether a way of one arrow or more leads from it to itself.
    pub cyclic: Items<bool>,
}

/// Sorts the nodes of a graph, which has for each node the nodes that its arrows lead to: those stand before it, unless
/// they are on a cycle with it. The only error is want of memory.
///
/// The nodes are searched along a path on which nodes that lead to each other are one group (Gabow, "Path-based
/// depth-first search for strong and biconnected components"), without recursion.
pub fn sort(alloc: Global, graph: &[Items<usize>]) -> Result<Sorted, AllocError>
    requires { IsGraph graph.now }
    ensures { IfOk result (IsSorted graph.now) }
{
    let mut search = Search::new(alloc, graph.len())?;
    for node in 0..graph.len() {
        search.run(graph, node)?;
    }
    Ok(search.into_sorted())
}
