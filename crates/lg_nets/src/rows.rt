//! Links between the nodes that lie on level wires.

ghost use Rattle.std.specs.Prelude.{◌≡◌, IfOk};
ghost use Rattle.lg_nets.specs.Rows.{node_of, reach_of, nodes_from, links_of, goes_on, carried, AreRowLinks};

use crate::components::Link;
use crate::rays::Segment;
use std::alloc::{AllocError, Global};

/// A node in its row.
#[derive(Clone, Copy, Debug, PartialEq, Eq, PartialOrd, Ord)]
pub struct Node {
    /// The row.
    pub across: i32,
    /// The place in the row.
    pub along: i32,
    /// How far a level wire leads from here.
    pub reach: i32,
    /// The node's number.
    pub place: usize,
}

/// Links that chain two rays' first ends exactly where one level wire has both.
pub fn row_links(alloc: Global, rays: &[Segment]) -> Result<Vec<Link>, AllocError>
    ensures { IfOk result (λ links. AreRowLinks rays.now links.items) }
{
    let mut nodes = nodes_of(alloc, rays)?;
    nodes.sort_unstable();
    links_of(alloc, &nodes)
}

fn nodes_of(alloc: Global, rays: &[Segment]) -> Result<Vec<Node>, AllocError>
    ensures { IfOk result (λ nodes. nodes.items ≡ nodes_from 0 rays.now) }
{
    let mut nodes = Vec::with_capacity(alloc, rays.len())?;
    for (place, ray) in rays.iter().enumerate() {
        nodes.push(node_of(place, *ray))?;
    }
    Ok(nodes)
}

fn node_of(place: usize, ray: Segment) -> Node
    ensures { result ≡ node_of place ray }
{
    Node {
        across: ray.from.y,
        along: ray.from.x,
        reach: reach_of(ray),
        place,
    }
}

fn reach_of(ray: Segment) -> i32
    ensures { result ≡ reach_of ray }
{
    if ray.from.y == ray.to.y && ray.from.x < ray.to.x {
        ray.to.x
    } else {
        ray.from.x
    }
}

fn links_of(alloc: Global, nodes: &[Node]) -> Result<Vec<Link>, AllocError>
    ensures { IfOk result (λ links. links.items ≡ links_of nodes.now) }
{
    let mut links = Vec::new(alloc);
    let Some((first, rest)) = nodes.split_first() else {
        return Ok(links);
    };
    let mut last = *first;
    for node in rest {
        if goes_on(last, *node) {
            links.push(Link {
                from: last.place,
                to: node.place,
            })?;
        }
        last = carried(last, *node);
    }
    Ok(links)
}

fn goes_on(last: Node, node: Node) -> bool
    ensures { result ≡ goes_on last node }
{
    node.across == last.across && node.along <= last.reach
}

fn carried(last: Node, node: Node) -> Node
    ensures { result ≡ carried last node }
{
    if goes_on(last, node) && node.reach < last.reach {
        Node {
            reach: last.reach,
            ..node
        }
    } else {
        node
    }
}
