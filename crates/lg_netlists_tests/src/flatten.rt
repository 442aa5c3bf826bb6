//! One drawing, its roles and its netlist. Other drawings are cases of `lg_cases`.

ghost use Rattle.std.specs.Prelude.{IsTrue};
ghost use Rattle.lg_circ.specs.Bounds.{is_on_sheet};

use lg_circ::{Attrs, Comp, Point, Sheet};
use lg_flatten::*;
use lg_netlist::Cell;
use lg_text::Text;
use sqlite_items::Items;
use std::alloc::{AllocError, Global};
use std::test::Fail;

fn text_pairs(alloc: Global, pairs: &[(&str, &str)]) -> Result<Items<(Text, Text)>, AllocError> {
    let mut items = Items::new(alloc);
    for (name, value) in pairs {
        items.push((Text::copy_of(alloc, name)?, Text::copy_of(alloc, value)?))?;
    }
    Ok(items)
}

// A component of a library at a point.
fn comp(
    alloc: Global,
    lib: &str,
    name: &str,
    loc: Point,
    settings: &[(&str, &str)],
) -> Result<Comp, AllocError>
    requires { IsTrue (is_on_sheet loc) }
{
    Ok(Comp {
        lib: Some(Text::copy_of(alloc, lib)?),
        name: Text::copy_of(alloc, name)?,
        loc,
        attrs: Attrs {
            list: text_pairs(alloc, settings)?,
        },
    })
}

// A NOT gate between two pins.
fn not_sheet(alloc: Global) -> Result<Sheet, AllocError> {
    let (start, end) = (Point { x: 100, y: 60 }, Point { x: 130, y: 60 });
    let mut comps = Items::new(alloc);
    comps.push(comp(alloc, "0", "Pin", start, &[("label", "A")])?)?;
    comps.push(comp(alloc, "1", "NOT Gate", end, &[])?)?;
    comps.push(comp(alloc, "0", "Pin", end, &[("output", "true")])?)?;
    Ok(Sheet {
        name: Text::copy_of(alloc, "main")?,
        comps,
        wires: Items::new(alloc),
    })
}

#[test]
fn one_not_gate_between_pins(rt: HostRuntime) -> Result<(), Fail> {
    let alloc = rt.alloc();
    let sheet = not_sheet(alloc)?;
    let libs = text_pairs(alloc, &[("0", "#Wiring"), ("1", "#Gates")])?;
    let found = roles(alloc, libs.as_slice(), sheet.comps.as_slice())?;
    let found = found.expect(&rt, "roles");
    let not = Role::Gate {
        cell: Cell::Not,
        size: 30,
    };
    let want = [Role::Pin { input: true }, not, Role::Pin { input: false }];
    assert_eq!(rt; found.as_slice(), want.as_slice());
    assert!(rt; sheet.comps.len() < 1000);
    assert!(rt; sheet.wires.len() < 1000);
    let made = netlist(alloc, &sheet, found.as_slice())?;
    assert_eq!(rt; made.circuit.as_str(), "main");
    assert_eq!(rt; made.nets, 2);
    assert_eq!(rt; made.parts.len(), 1);
    assert_eq!(rt; made.pins.len(), 2);
    Ok(())
}

#[test]
fn settings_out_of_their_lists_have_no_role(rt: HostRuntime) -> Result<(), Fail> {
    let alloc = rt.alloc();
    let libs = text_pairs(alloc, &[("0", "#Wiring"), ("1", "#Gates")])?;
    for (name, size) in [("NOT Gate", "50"), ("AND Gate", "050")] {
        let at = Point { x: 130, y: 60 };
        let mut comps = Items::new(alloc);
        comps.push(comp(alloc, "1", name, at, &[("size", size)])?)?;
        assert!(rt;
            roles(alloc, libs.as_slice(), comps.as_slice())?.is_none(),
            "{name}"
        );
    }
    Ok(())
}
