//! Where the ports of components lie.

ghost use Rattle.std.specs.Prelude.{◌≡◌, [], ◌∷◌, ◌++◌, ◌≤◌, ◌-ℤ◌, ℕ, pos, unsigned_abs, length, IfOk, OnOk, IsTrue};
ghost use Rattle.std.specs.List.{flat_map, zip};
ghost use Rattle.lg_circ.specs.declared.project.Point.{Point};
ghost use Rattle.lg_circ.specs.Bounds.{is_on_sheet};
ghost use Rattle.lg_flatten.specs.Uses.{spread, moved, two_inputs, IsSmall, role_inputs, input_points, port_points, AreFit};

use crate::role::Role;
use lg_circ::{Comp, Point};
use lg_netlist::Cell;
use std::alloc::{AllocError, Global};

/// The points of all ports of the components, in file order: the inputs of each before its output.
pub fn ports(alloc: Global, comps: &[Comp], roles: &[Role]) -> Result<Vec<Point>, AllocError>
    requires { AreFit comps.now roles.now }
    ensures { IfOk result (λ ports. ports.items ≡ flat_map port_points (zip comps.now roles.now)) }
{
    let mut ports = Vec::new(alloc);
    for (comp, role) in comps.iter().zip(roles) {
        put_inputs(&mut ports, comp.loc, *role)?;
        ports.push(comp.loc)?;
    }
    Ok(ports)
}

/// How many inputs a component has, wherever it stands.
pub fn input_count(role: Role) -> usize
    ensures value { (place : Point) → result ≡ length (role_inputs place role) }
    ensures few { result ≤ 2 }
{
    match role {
        Role::Pin { .. } => 0,
        Role::Gate {
            cell: Cell::Not,
            ..
        } => 1,
        Role::Gate {
            cell: Cell::And | Cell::Or,
            ..
        } => 2,
    }
}

/// How many ports a component has, wherever it stands.
pub fn port_count(role: Role) -> usize
    ensures { (place : Point) → result ≡ length (role_inputs place role ++ place ∷ []) }
{
    input_count(role) + 1
}

fn put_inputs(ports: &mut Vec<Point>, place: Point, role: Role) -> Result<(), AllocError>
    requires on_sheet { IsTrue (is_on_sheet place) }
    requires small { IsSmall role }
    ensures { OnOk result (ports.new.items ≡ ports.old.items ++ role_inputs place role) }
{
    match role {
        Role::Pin { .. } => Ok(()),
        Role::Gate {
            cell: Cell::Not,
            size,
        } => {
            ports.push(moved(place, minus(size), 0))?;
            Ok(())
        }
        Role::Gate {
            cell: Cell::And | Cell::Or,
            size,
        } => put_two_inputs(ports, place, size),
    }
}

fn put_two_inputs(ports: &mut Vec<Point>, place: Point, size: u32) -> Result<(), AllocError>
    requires on_sheet { IsTrue (is_on_sheet place) }
    requires small { size ≤ 70 }
    ensures { OnOk result (ports.new.items ≡ ports.old.items ++ two_inputs place size) }
{
    let left = minus(size);
    let spread = spread(size);
    ports.push(moved(place, left, minus(spread)))?;
    ports.push(moved(place, left, spread as i32))?;
    Ok(())
}

fn spread(size: u32) -> u32
    ensures { result ≡ spread size }
{
    if size == 30 { 10 } else { 20 }
}

fn minus(distance: u32) -> i32
    requires { distance ≤ 70 }
    ensures { result ≡ pos 0 -ℤ pos distance }
{
    -(distance as i32)
}

fn moved(place: Point, right: i32, down: i32) -> Point
    requires on_sheet { IsTrue (is_on_sheet place) }
    requires little_right { unsigned_abs right ≤ 70 }
    requires little_down { unsigned_abs down ≤ 70 }
    ensures { result ≡ moved place right down }
{
    Point {
        x: place.x + right,
        y: place.y + down,
    }
}
