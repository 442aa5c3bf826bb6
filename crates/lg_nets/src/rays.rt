//! The nodes of a sheet. Each is the first end of a line: a port counts as a line of length 0, and a wire is seen from both ends.

ghost use Rattle.std.specs.Prelude.{◌≡◌, ◌<◌, ◌^◌, ◌+◌, ◌*◌, map, length, IfOk};
ghost use Rattle.lg_nets.specs.Segment.{segment_of};
ghost use Rattle.lg_nets.specs.Rays.{rays, flipped, transposed, reversed};

use lg_circ::{Point, Wire};
use std::alloc::{AllocError, Global};

/// A straight line from one point to another.
#[derive(Clone, Copy, Debug, PartialEq, Eq)]
pub struct Segment {
    pub from: Point,
    pub to: Point,
}

/// The ports as lines of length 0, the wires, and the wires seen from their other ends.
pub fn rays(alloc: Global, wires: &[Wire], ports: &[Point]) -> Result<Vec<Segment>, AllocError>
    requires few { length ports.now + 2 * length wires.now < 2 ^ 32 }
    ensures { IfOk result (λ made. made.items ≡ rays (map segment_of wires.now) ports.now) }
{
    let mut made = Vec::with_capacity(alloc, ports.len() + 2 * wires.len())?;
    for port in ports {
        made.push(Segment {
            from: *port,
            to: *port,
        })?;
    }
    for wire in wires {
        made.push(segment_of(*wire))?;
    }
    for wire in wires {
        made.push(reversed(segment_of(*wire)))?;
    }
    Ok(made)
}

fn segment_of(wire: Wire) -> Segment
    ensures { result ≡ segment_of wire }
{
    Segment {
        from: wire.from,
        to: wire.to,
    }
}

fn reversed(segment: Segment) -> Segment
    ensures { result ≡ reversed segment }
{
    Segment {
        from: segment.to,
        to: segment.from,
    }
}

/// Lines with x and y exchanged, so that upright ones lie level.
pub fn transposed(alloc: Global, segments: &[Segment]) -> Result<Vec<Segment>, AllocError>
    ensures { IfOk result (λ made. made.items ≡ map transposed segments.now) }
{
    let mut made = Vec::with_capacity(alloc, segments.len())?;
    for segment in segments {
        made.push(Segment {
            from: flipped(segment.from),
            to: flipped(segment.to),
        })?;
    }
    Ok(made)
}

fn flipped(point: Point) -> Point
    ensures { result ≡ flipped point }
{
    Point {
        x: point.y,
        y: point.x,
    }
}
