//! Small sheets by hand, and sheets on which a plain program stands beside the definition.

ghost use Rattle.std.specs.Prelude.{◌≡◌, ◌<◌, ◌+◌, ◌*◌, ◌^◌, length, IsTrue};
ghost use Rattle.lg_circ.specs.Bounds.{is_on_sheet};

use lg_circ::{Point, Wire};
use lg_nets::*;
use std::alloc::{AllocError, Global};
use std::test::Fail;

const fn point(x: i32, y: i32) -> Point {
    Point { x, y }
}

const fn wire(x: i32, y: i32, to_x: i32, to_y: i32) -> Wire
    requires from { IsTrue (is_on_sheet (record { x = x; y = y })) }
    requires to { IsTrue (is_on_sheet (record { x = to_x; y = to_y })) }
{
    Wire {
        from: Point { x, y },
        to: Point { x: to_x, y: to_y },
    }
}

#[test]
fn sheets_by_hand(rt: HostRuntime) -> Result<(), Fail> {
    let a = point(100, 60);
    let b = point(130, 60);
    let c = point(100, 61);
    let left = point(0, 10);
    let right = point(40, 10);
    let top = point(20, 0);
    let low = point(20, 40);
    let across = wire(0, 10, 40, 10);
    let down = wire(20, 0, 20, 40);
    let on = wire(40, 10, 40, 30);
    let end = point(40, 30);
    let cases: [(&str, &[Wire], &[Point], &[u32], &[bool]); 13] = [
        ("no ports", &[across], &[], &[], &[]),
        (
            "ports at one point",
            &[],
            &[a, a, b, c, b],
            &[0, 0, 2, 3, 2],
            &[true, true, true, false, true],
        ),
        (
            "a chain of wires",
            &[across, down, on],
            &[left, end, right],
            &[0, 0, 0],
            &[true, true, true],
        ),
        (
            "wires that only cross",
            &[across, down, on],
            &[left, top, low, end],
            &[0, 1, 1, 0],
            &[true, true, true, true],
        ),
        (
            "a crossing with a port",
            &[across, down],
            &[left, top, point(20, 10)],
            &[0, 0, 0],
            &[true, true, true],
        ),
        (
            "an end in the middle",
            &[across, wire(20, 40, 20, 10)],
            &[low, right],
            &[0, 0],
            &[true, true],
        ),
        (
            "a port in the middle",
            &[wire(40, 10, 0, 10)],
            &[point(20, 10), left, top],
            &[0, 0, 2],
            &[true, true, false],
        ),
        (
            "a wire of length 0",
            &[wire(20, 0, 20, 0)],
            &[top, low, top],
            &[0, 1, 0],
            &[true, false, true],
        ),
        (
            "a lone port under it",
            &[wire(20, 0, 20, 0)],
            &[top],
            &[0],
            &[true],
        ),
        (
            "wires that overlap",
            &[wire(0, 10, 30, 10), wire(60, 10, 20, 10)],
            &[left, point(60, 10), point(61, 10)],
            &[0, 0, 2],
            &[true, true, false],
        ),
        (
            "a skew wire",
            &[wire(0, 10, 20, 40)],
            &[left, low, point(10, 25)],
            &[0, 1, 2],
            &[false, false, false],
        ),
        (
            "a skew end at a crossing",
            &[across, down, wire(20, 10, 30, 30)],
            &[left, top],
            &[0, 0],
            &[true, true],
        ),
        (
            "four wires at one point",
            &[
                wire(0, 0, 0, 9),
                wire(0, 0, 9, 0),
                wire(-9, 0, 0, 0),
                wire(0, -9, 0, 0),
            ],
            &[point(0, 9), point(9, 0), point(-9, 0), point(0, -9)],
            &[0, 0, 0, 0],
            &[true, true, true, true],
        ),
    ];
    for (name, wires, ports, labels, attached) in cases {
        assert!(rt; wires.len() < 100 && ports.len() < 100);
        let nets = sheet_nets(rt.alloc(), wires, ports)?;
        assert_eq!(rt; nets.labels.as_slice(), labels, "{name}");
        assert_eq!(rt; nets.attached.as_slice(), attached, "{name}");
        assert!(rt; agrees(rt.alloc(), wires, ports)?, "{name}");
    }
    Ok(())
}

// Sheets of wires and ports on a few points, level, upright and skew ones, as a generator of numbers draws them.
#[test]
fn drawn_sheets_agree_with_a_plain_program(rt: HostRuntime) -> Result<(), Fail> {
    let mut drawn = Drawn { state: 1 };
    for _ in 0..300 {
        let (a, b, c, d) = (drawn.wire(), drawn.wire(), drawn.wire(), drawn.wire());
        let (e, f, g, h) = (drawn.point(), drawn.point(), drawn.point(), drawn.point());
        let wires = [a, b, c, d];
        let ports = [e, f, g, h];
        assert!(rt; agrees(rt.alloc(), &wires, &ports)?, "{wires:?} {ports:?}");
        assert!(rt;
            agrees(rt.alloc(), &wires[..2], &ports)?,
            "{wires:?} {ports:?}"
        );
    }
    Ok(())
}

#[derive(Drop)]
struct Drawn {
    state: u32,
}

impl Drawn {
    fn number(&mut self) -> i32 {
        self.state = self
            .state
            .wrapping_mul(1_664_525)
            .wrapping_add(1_013_904_223);
        ((self.state >> 16) % 4) as i32
    }

    fn point(&mut self) -> Point {
        let x = self.number();
        Point {
            x,
            y: self.number(),
        }
    }

    fn wire(&mut self) -> Wire {
        let from = self.point();
        let to = self.point();
        match self.number() {
            0 => between(from, to),
            1 => between(from, Point { x: to.x, y: from.y }),
            _ => between(from, Point { x: from.x, y: to.y }),
        }
    }
}

// The wire between two points of the sheet.
fn between(from: Point, to: Point) -> Wire {
    if from.is_on_sheet() && to.is_on_sheet() {
        Wire { from, to }
    } else {
        wire(0, 0, 0, 0)
    }
}

/// Whether the classes and flags are those of the plain program.
fn agrees(alloc: Global, wires: &[Wire], ports: &[Point]) -> Result<bool, AllocError>
    requires { length ports.now + 2 * length wires.now < 2 ^ 32 }
{
    let nets = sheet_nets(alloc, wires, ports)?;
    let plain = plain_labels(alloc, wires, ports)?;
    for (i, port) in ports.iter().enumerate() {
        for j in 0..ports.len() {
            let joined = nets.labels.get(i) == nets.labels.get(j);
            if joined != (plain.get(i) == plain.get(j)) {
                return Ok(false);
            }
        }
        let attached = wires.iter().any(|wire| lies_on(*wire, *port))
            || stands_beside(ports, i, *port);
        if nets.attached.get(i) != Some(&attached) {
            return Ok(false);
        }
    }
    Ok(true)
}

fn stands_beside(ports: &[Point], place: usize, port: Point) -> bool {
    for (i, other) in ports.iter().enumerate() {
        if i != place && *other == port {
            return true;
        }
    }
    false
}

/// The least node that contacts lead to from each node: all pairs are looked at again until nothing changes.
fn plain_labels(alloc: Global, wires: &[Wire], ports: &[Point]) -> Result<Vec<usize>, AllocError> {
    let mut nodes = Vec::from_slice(alloc, ports)?;
    for wire in wires {
        nodes.push(wire.from)?;
        nodes.push(wire.to)?;
    }
    let mut labels = vec![in alloc; 0; nodes.len()]?;
    settle(wires, &nodes, &mut labels);
    Ok(labels)
}

fn settle(wires: &[Wire], nodes: &[Point], labels: &mut [usize])
    requires { length labels.old ≡ length nodes.now }
{
    for (number, label) in labels.iter_mut().enumerate() {
        *label = number;
    }
    for _ in 0..nodes.len() {
        if !pass(wires, nodes, labels) {
            return;
        }
    }
}

fn pass(wires: &[Wire], nodes: &[Point], labels: &mut [usize]) -> bool
    requires { length labels.old ≡ length nodes.now }
{
    let mut changed = false;
    for a in 0..nodes.len() {
        for b in 0..nodes.len() {
            if labels[b] < labels[a] && meet(wires, nodes[a], nodes[b]) {
                labels[a] = labels[b];
                changed = true;
            }
        }
    }
    changed
}

fn meet(wires: &[Wire], a: Point, b: Point) -> bool {
    for wire in wires {
        if lies_on(*wire, a) && lies_on(*wire, b) {
            return true;
        }
    }
    a == b
}

fn lies_on(wire: Wire, point: Point) -> bool {
    let (from, to) = (wire.from, wire.to);
    let level = from.y == to.y && point.y == from.y && is_between(from.x, to.x, point.x);
    let upright = from.x == to.x && point.x == from.x && is_between(from.y, to.y, point.y);
    level || upright
}

fn is_between(a: i32, b: i32, z: i32) -> bool {
    (a <= z && z <= b) || (b <= z && z <= a)
}
