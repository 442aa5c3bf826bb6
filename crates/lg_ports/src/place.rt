//! Where ports stand.

ghost use Rattle.std.specs.Prelude.{pos, neg_ℤ, ◌+ℤ◌, ◌≡◌, ◌+◌, ◌*◌, ◌≤◌, ◌≤ℤ◌, IfOk};
ghost use Rattle.lg_ports.specs.Given.{seen_given, is_flagged};
ghost use Rattle.lg_ports.specs.Places.{place_at, gate_input, aside, turned, bubble};

use crate::fan::{below_fan, fan_reach, fan_y};
use crate::gate::gate_y;
use crate::given::Given;
use lg_kinds::rows::{Count, Place};
use std::alloc::{AllocError, Global};

// Where port number `k` stands, with the part facing east.
pub fn place_at(
    alloc: Global,
    given: &Given,
    place: Place,
    k: u32,
) -> Result<(i32, i32), AllocError>
    requires { k ≤ 99 }
    ensures place { IfOk result (λ at. at ≡ place_at (seen_given given.now) place k) }
    ensures near { IfOk result (λ at. neg_ℤ (pos 2147483647) ≤ℤ at.0) }
{
    match place {
        Place::At(x, y) => Ok((i32::from(x), i32::from(y))),
        Place::Row(x, y, step) => Ok((i32::from(x), in_row(y, step, k))),
        Place::Behind => Ok((-(given.number("size") as i32), 0)),
        Place::GateInput(extra) => gate_input(alloc, given, extra, k),
        Place::Control => Ok((-10, if given.is("control", "left") { -10 } else { 10 })),
        Place::FanIn => {
            let lines = given.selections();
            Ok((-fan_reach(lines), fan_y(lines, k)))
        }
        Place::FanOut => {
            let lines = given.selections();
            Ok((fan_reach(lines), fan_y(lines, k)))
        }
        Place::Column(x) => Ok((i32::from(x), fan_y(given.selections(), k))),
        Place::Aside(x) => Ok((i32::from(x), aside(given))),
        Place::Beneath(x) => Ok((i32::from(x), below_fan(given.selections()))),
        Place::Above(x) => Ok((i32::from(x), -below_fan(given.selections()))),
    }
}

fn in_row(y: i16, step: u16, k: u32) -> i32
    requires { k ≤ 99 }
    ensures { result ≡ y +ℤ pos (step * k) }
{
    i32::from(y) + (u32::from(step) * k) as i32
}

fn gate_input(alloc: Global, given: &Given, extra: u16, k: u32) -> Result<(i32, i32), AllocError>
    requires { k ≤ 99 }
    ensures place { IfOk result (λ at. at ≡ gate_input (seen_given given.now) extra k) }
    ensures near { IfOk result (λ at. neg_ℤ (pos 2147483647) ≤ℤ at.0) }
{
    let size = given.number("size");
    let negated = is_flagged(alloc, given, "negate", Count::Inputs, k)?;
    Ok((
        gate_x(size, extra, negated),
        gate_y(given.number("inputs"), size, k),
    ))
}

fn gate_x(size: u32, extra: u16, negated: bool) -> i32
    requires { size ≤ 99 }
    ensures x { result ≡ neg_ℤ (pos (size + extra + bubble negated)) }
    ensures near { neg_ℤ (pos 2147483647) ≤ℤ result }
{
    let behind = size + u32::from(extra) + bubble(negated);
    -(behind as i32)
}

// Whether attribute number `k` of a row is true.
fn is_flagged(
    alloc: Global,
    given: &Given,
    name: &str,
    count: Count,
    k: u32,
) -> Result<bool, AllocError>
    ensures { IfOk result (λ flag. flag ≡ is_flagged (seen_given given.now) name.now count k) }
{
    match given.numbered_value(alloc, name, count, k) {
        Ok(Some(text)) => Ok(text == "true"),
        Ok(None) => Ok(false),
        Err(e) => Err(e),
    }
}

fn bubble(negated: bool) -> u32
    ensures bubble { result ≡ bubble negated }
    ensures small { result ≤ 10 }
{
    if negated { 10 } else { 0 }
}

// Below the middle, or above it.
fn aside(given: &Given) -> i32
    ensures { result ≡ aside (seen_given given.now) }
{
    let below = below_fan(given.selections());
    if given.is("selloc", "tr") {
        -below
    } else {
        below
    }
}

/// A place of what faces east, turned as it faces: `facing` is `west`, `north`, `south`, or anything else for east.
pub fn turned(facing: &str, x: i32, y: i32) -> (i32, i32)
    requires x { neg_ℤ (pos 2147483647) ≤ℤ x }
    ensures { result ≡ turned facing.now (x, y) }
{
    if facing == "west" {
        (-x, y)
    } else if facing == "north" {
        (y, -x)
    } else if facing == "south" {
        (y, x)
    } else {
        (x, y)
    }
}
