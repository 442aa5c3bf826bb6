//! The ports of a component.

ghost use Rattle.std.specs.Prelude.{pos, neg_ℤ, ◌≤ℤ◌, ◌≡◌, ◌++◌, ◌≤◌, IfOk, OnOk, IfErr};
ghost use Rattle.lg_ports.specs.Bounds.{AreBounded};
ghost use Rattle.lg_ports.specs.Given.{seen_given, component};
ghost use Rattle.lg_ports.specs.Judged.{AllFit, Refuses};
ghost use Rattle.lg_ports.specs.Ports.{ports_of, row_ports, port_at, offset_at};
ghost use Rattle.lg_kinds.specs.Rows.{seen_port};

use crate::given::Given;
use crate::judge::judge;
use crate::place::{place_at, turned};
use crate::size::size_of;
use crate::splitter::push_ends;
use lg_attrs::Attrs;
use lg_kinds::rows::PortRow;
use lg_kinds::{Kind, PartFault, Port, PortTable, entry, name_at};
use sqlite_items::Items;
use std::alloc::{AllocError, Global};

/// The ports of a component of a kind with these attributes, inputs before outputs, turned as it faces.
///
/// An attribute that is left out has the value that `table` gives it, and else the one of the table of kinds; a port
/// that `table` moves stands where it says. A value out of its range is refused: `BadAttr` has the first such one, with
/// `facing` before the others and these in the order of the kind's entry.
pub fn ports(
    alloc: Global,
    kind: Kind,
    attrs: &Attrs,
    table: &PortTable,
) -> Result<Items<Port>, PartFault>
    ensures found { IfOk result (λ list. AllFit (component kind attrs.now.list table.now.records)
        × (list ≡ ports_of (component kind attrs.now.list table.now.records))) }
    ensures bounded { IfOk result (λ list. AreBounded kind list) }
    ensures refused { IfErr result (λ fault. Refuses (component kind attrs.now.list table.now.records) fault) }
{
    let given = Given { kind, attrs, table };
    judge(alloc, &given)?;
    Ok(list_ports(alloc, &given)?)
}

fn list_ports(alloc: Global, given: &Given) -> Result<Items<Port>, AllocError>
    ensures { IfOk result (λ list. list ≡ ports_of (seen_given given.now)) }
{
    let mut list = Items::new(alloc);
    for row in entry(given.kind).ports {
        push_row(alloc, &mut list, given, row)?;
    }
    push_ends(alloc, &mut list, given)?;
    Ok(list)
}

// Adds the ports of a row.
fn push_row(
    alloc: Global,
    list: &mut Items<Port>,
    given: &Given,
    row: &PortRow,
) -> Result<(), AllocError>
    ensures { OnOk result (list.new ≡ list.old ++ row_ports (seen_given given.now) (seen_port row.now)) }
{
    for k in 0..given.count(row.2) {
        let port = port_at(alloc, given, row, k)?;
        list.push(port)?;
    }
    Ok(())
}

fn port_at(alloc: Global, given: &Given, row: &PortRow, k: u32) -> Result<Port, AllocError>
    requires { k ≤ 99 }
    ensures { IfOk result (λ port. port ≡ port_at (seen_given given.now) (seen_port row.now) k) }
{
    let (x, y) = offset_at(alloc, given, row, k)?;
    let (dx, dy) = turned(given.facing(), x, y);
    Ok(Port {
        dx,
        dy,
        width: size_of(given, row.3),
        side: row.0,
        loose: row.5,
    })
}

// Where port number `k` of a row stands, with the part facing east: where the port table says, or the table of kinds.
fn offset_at(alloc: Global, given: &Given, row: &PortRow, k: u32) -> Result<(i32, i32), AllocError>
    requires { k ≤ 99 }
    ensures place { IfOk result (λ at. at ≡ offset_at (seen_given given.now) (seen_port row.now) k) }
    ensures near { IfOk result (λ at. neg_ℤ (pos 2147483647) ≤ℤ at.0) }
{
    let name = name_at(alloc, row.1, row.2, k)?;
    match given.table.place_of(given.kind, name.as_str()) {
        Some((x, y)) => Ok((i32::from(x), i32::from(y))),
        None => place_at(alloc, given, row.4, k),
    }
}
