//! Drivers, order, chains and acceptance of small netlists.

use crate::samples::{Gate, Pins, netlist};
use lg_netlist::*;
use std::alloc::{AllocError, Global};
use std::test::Fail;

const TWO_ON_ONE_NET: &[Gate] = &[
    (Cell::Not, &[Some(1)], Some(3)),
    (Cell::Not, &[Some(2)], Some(2)),
    (Cell::Not, &[Some(3)], Some(2)),
];

#[test]
fn parts_drive_before_pins_and_clocks(rt: HostRuntime) -> Result<(), Fail> {
    let pins: Pins = &[(true, "", &[1]), (false, "", &[2]), (true, "", &[0, 2])];
    let netlist = netlist(&rt, rt.alloc(), pins, TWO_ON_ONE_NET, Some(2))?;
    let found = netlist.drivers(rt.alloc(), 2)?;
    let first = Driver::Part {
        part: 1,
        output: 0,
        bit: 0,
    };
    let second = Driver::Part {
        part: 2,
        output: 0,
        bit: 0,
    };
    let third = Driver::Pin { pin: 2, bit: 1 };
    let last = Driver::Clock { clock: 0 };
    assert_eq!(rt; found.as_slice(), [first, second, third, last].as_slice());
    Ok(())
}

#[test]
fn nets_have_first_drivers(rt: HostRuntime) -> Result<(), Fail> {
    let netlist = netlist(
        &rt,
        rt.alloc(),
        &[(true, "", &[1, 5])],
        TWO_ON_ONE_NET,
        None,
    )?;
    let found = netlist.first_drivers(rt.alloc())?;
    let low = Some(Driver::Pin { pin: 0, bit: 0 });
    let high = Some(Driver::Pin { pin: 0, bit: 1 });
    let first = Some(Driver::Part {
        part: 0,
        output: 0,
        bit: 0,
    });
    let second = Some(Driver::Part {
        part: 1,
        output: 0,
        bit: 0,
    });
    let expected = [None, low, second, first, None, high, None, None];
    assert_eq!(rt; found.as_slice(), expected.as_slice());
    Ok(())
}

const BACKWARDS: &[Gate] = &[
    (Cell::Not, &[Some(2)], Some(3)),
    (Cell::Not, &[Some(1)], Some(2)),
    (Cell::Not, &[Some(0)], Some(1)),
];

#[test]
fn outputs_come_after_what_they_read(rt: HostRuntime) -> Result<(), Fail> {
    let netlist = netlist(&rt, rt.alloc(), &[(true, "", &[0])], BACKWARDS, None)?;
    let Ok(order) = netlist.order(rt.alloc()) else {
        panic!(rt; "no order");
    };
    assert_eq!(rt; order.as_slice(), [(2, 0), (1, 0), (0, 0)].as_slice());
    Ok(())
}

const CHAINS: [(&'static str, &'static [Gate], u64); 4] = [
    ("no parts", &[], 0),
    ("a gate without wires", &[(Cell::Not, &[None], None)], 1),
    (
        "three gates in a chain",
        &[
            (Cell::Not, &[Some(0)], Some(1)),
            (Cell::Not, &[Some(1)], Some(2)),
            (Cell::Not, &[Some(2)], Some(3)),
        ],
        3,
    ),
    (
        "the second input is behind two gates, the first behind none",
        &[
            (Cell::And, &[Some(0), Some(2)], Some(3)),
            (Cell::Not, &[Some(0)], Some(1)),
            (Cell::Not, &[Some(1)], Some(2)),
            (Cell::Not, &[Some(0)], Some(4)),
        ],
        3,
    ),
];

#[test]
fn longest_chains(rt: HostRuntime) -> Result<(), Fail> {
    for (case, gates, expected) in CHAINS {
        let netlist = netlist(&rt, rt.alloc(), &[(true, "", &[0])], gates, None)?;
        let Ok(longest) = netlist.longest(rt.alloc()) else {
            panic!(rt; "no longest chain");
        };
        assert_eq!(rt; longest, expected, "{case}");
    }
    Ok(())
}

const RING: &[Gate] = &[
    (Cell::Not, &[Some(2)], Some(3)),
    (Cell::Not, &[Some(1)], Some(2)),
    (Cell::Not, &[Some(2)], Some(1)),
];

#[test]
fn a_cycle_has_no_order(rt: HostRuntime) -> Result<(), Fail> {
    let netlist = netlist(&rt, rt.alloc(), &[], RING, None)?;
    let Err(fault) = netlist.order(rt.alloc()) else {
        panic!(rt; "an order");
    };
    assert_eq!(rt; fault, OrderFault::Cycle { part: 1 });
    let Err(fault) = netlist.longest(rt.alloc()) else {
        panic!(rt; "a longest chain");
    };
    assert_eq!(rt; fault, OrderFault::Cycle { part: 1 });
    Ok(())
}

type Row = (Pins, &'static [Gate], &'static str);

const MANY_DRIVERS: [Row; 5] = [
    (
        &[(true, "", &[0])],
        &[
            (Cell::Not, &[Some(0)], Some(5)),
            (Cell::Not, &[Some(0)], Some(5)),
            (Cell::Not, &[Some(0)], Some(3)),
            (Cell::Not, &[Some(0)], Some(3)),
        ],
        "ManyDrivers 3 g2 g3",
    ),
    (
        &[(true, "", &[0])],
        &[
            (Cell::Not, &[Some(0)], Some(2)),
            (Cell::Not, &[Some(0)], Some(2)),
            (Cell::Not, &[Some(0)], Some(2)),
        ],
        "ManyDrivers 2 g0 g1",
    ),
    (
        &[(true, "", &[0]), (true, "", &[1])],
        &[(Cell::Not, &[Some(0)], Some(1))],
        "ManyDrivers 1 g0 p1",
    ),
    (
        &[(true, "", &[4, 6]), (true, "", &[5, 6])],
        &[],
        "ManyDrivers 6 p0 p1",
    ),
    (
        &[],
        &[
            (Cell::Not, &[None], Some(0)),
            (Cell::Not, &[Some(0)], Some(0)),
        ],
        "ManyDrivers 0 g0 g1",
    ),
];

#[test]
fn nets_with_two_drivers(rt: HostRuntime) -> Result<(), Fail> {
    for (pins, gates, expected) in MANY_DRIVERS {
        let netlist = netlist(&rt, rt.alloc(), pins, gates, None)?;
        assert_eq!(rt; said(rt.alloc(), &netlist)?.as_str(), expected);
    }
    Ok(())
}

const UNDRIVEN: [Row; 11] = [
    (&[], &[], "accepted"),
    (
        &[(true, "", &[0]), (false, "", &[2])],
        &[
            (Cell::Not, &[Some(1)], Some(2)),
            (Cell::Not, &[Some(0)], Some(1)),
        ],
        "accepted",
    ),
    (&[], &[(Cell::Not, &[None], None)], "Undriven g0 in"),
    (&[], &[(Cell::And, &[None, None], None)], "Undriven g0 in0"),
    (
        &[(true, "", &[0])],
        &[(Cell::Or, &[None, Some(0)], Some(1))],
        "accepted",
    ),
    (
        &[(true, "", &[0])],
        &[(Cell::And, &[Some(0), None, Some(1)], Some(2))],
        "Undriven g0 in2",
    ),
    (&[(true, "", &[0]), (false, "", &[4])], &[], "Undriven p1 p"),
    (
        &[(true, "", &[0, 1]), (false, "", &[1, 0])],
        &[],
        "accepted",
    ),
    (
        &[(true, "", &[0, 1]), (false, "", &[1, 2])],
        &[],
        "Undriven p1 p",
    ),
    (
        &[(false, "", &[4])],
        &[(Cell::Not, &[Some(3)], None)],
        "Undriven g0 in",
    ),
    (
        &[],
        &[
            (Cell::Not, &[Some(0)], Some(0)),
            (Cell::Not, &[None], Some(1)),
        ],
        "Undriven g1 in",
    ),
];

#[test]
fn inputs_without_drivers(rt: HostRuntime) -> Result<(), Fail> {
    for (pins, gates, expected) in UNDRIVEN {
        let netlist = netlist(&rt, rt.alloc(), pins, gates, None)?;
        assert_eq!(rt; said(rt.alloc(), &netlist)?.as_str(), expected);
    }
    Ok(())
}

const CYCLES: [Row; 3] = [
    (&[], &[(Cell::Not, &[Some(0)], Some(0))], "Cycle g0"),
    (
        &[(true, "", &[0])],
        &[
            (Cell::Not, &[Some(0)], Some(3)),
            (Cell::Not, &[Some(2)], Some(1)),
            (Cell::Not, &[Some(1)], Some(2)),
        ],
        "Cycle g1",
    ),
    (
        &[],
        &[
            (Cell::Not, &[Some(2)], Some(3)),
            (Cell::Not, &[Some(2)], Some(1)),
            (Cell::Not, &[Some(1)], Some(2)),
        ],
        "Cycle g1",
    ),
];

#[test]
fn chains_that_return(rt: HostRuntime) -> Result<(), Fail> {
    for (pins, gates, expected) in CYCLES {
        let netlist = netlist(&rt, rt.alloc(), pins, gates, None)?;
        assert_eq!(rt; said(rt.alloc(), &netlist)?.as_str(), expected);
    }
    Ok(())
}

// What is said of a netlist.
fn said(alloc: Global, netlist: &Netlist) -> Result<String, AllocError> {
    match netlist.check_export(alloc) {
        Ok(()) => "accepted".to_string(alloc),
        Err(NotAccepted::ManyDrivers { net, first, second }) => {
            format!(in alloc; "ManyDrivers {net} {} {}", first.as_str(), second.as_str())
        }
        Err(NotAccepted::Undriven { part, port }) => {
            format!(in alloc; "Undriven {} {}", part.as_str(), port.as_str())
        }
        Err(NotAccepted::Cycle { part }) => format!(in alloc; "Cycle {}", part.as_str()),
        Err(NotAccepted::Memory) => Err(AllocError),
    }
}
