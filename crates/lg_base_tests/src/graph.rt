//! Small graphs.

ghost use Rattle.std.specs.Prelude.{◌<◌, length, All, IsTrue, IfOk, IfSome};
ghost use Rattle.std.specs.Bool.{OnTrue};
ghost use Rattle.lg_graph.specs.Graph.{IsGraph};

use lg_graph::sort;
use sqlite_items::Items;
use std::alloc::{AllocError, Global};
use std::test::Fail;

// The arrows of a few nodes.
fn graph(alloc: Global, arrows: &[&[usize]]) -> Result<Items<Items<usize>>, AllocError> {
    let mut graph = Items::new(alloc);
    for to in arrows {
        graph.push(Items::from_slice(alloc, *to)?)?;
    }
    Ok(graph)
}

fn are_nodes(arrows: &[usize], count: usize) -> bool
    ensures { OnTrue result (All (λ to. to < count) arrows.now) }
{
    arrows.iter().all(|to| *to < count)
}

fn is_graph(graph: &[Items<usize>]) -> bool
    ensures { OnTrue result (IsGraph graph.now) }
{
    let count = graph.len();
    graph
        .iter()
        .all(|arrows| are_nodes(arrows.as_slice(), count))
}

#[test]
fn arrows_lead_back_and_cycles_are_marked(rt: HostRuntime) -> Result<(), Fail> {
    let alloc = rt.alloc();
    let table: [(&[&[usize]], &[usize], &[bool]); 9] = [
        (&[], &[], &[]),
        (&[&[]], &[0], &[false]),
        (&[&[0]], &[0], &[true]),
        (&[&[1], &[2], &[]], &[2, 1, 0], &[false, false, false]),
        (&[&[], &[0], &[1]], &[0, 1, 2], &[false, false, false]),
        (&[&[1], &[0]], &[1, 0], &[true, true]),
        // a way into a cycle, and one out of it
        (
            &[&[1], &[2], &[1, 3], &[]],
            &[3, 2, 1, 0],
            &[false, true, true, false],
        ),
        // a node between two cycles is on none
        (&[&[2], &[1, 0], &[2]], &[2, 0, 1], &[false, true, true]),
        // two cycles over one node
        (&[&[1, 2], &[0], &[0]], &[1, 2, 0], &[true, true, true]),
    ];
    for (arrows, order, cyclic) in table {
        let graph = graph(alloc, arrows)?;
        if is_graph(graph.as_slice()) {
            let sorted = sort(alloc, graph.as_slice())?;
            assert_eq!(rt; sorted.order.as_slice(), order);
            assert_eq!(rt; sorted.cyclic.as_slice(), cyclic);
        } else {
            panic!(rt; "an arrow leads nowhere");
        }
    }
    Ok(())
}
