//! What a tree says as a project.

ghost use Rattle.std.specs.Prelude.{◌≡◌, codes, Some, option_and_then};
ghost use Rattle.std.specs.Option.{option_copied};
ghost use Rattle.lg_circ.specs.Tree.{attribute, children_named, child_named, is_named};
ghost use Rattle.lg_circ.specs.Bounds.{is_limit};
ghost use Rattle.lg_attrs.specs.Pairs.{value_under};
ghost use Rattle.lg_circ.specs.Meaning.{each, point_of, lib_of, setting_of, settings_of, wire_of, comp_of, sheet_of, options_of, limit_of, is_error, project_of};
ghost use Rattle.lg_circ.specs.Reading.{Gives};

use crate::character::{are_decimal, number};
use crate::element::Element;
use crate::fault::CircFault;
use crate::point::point;
use crate::project::{Comp, GREATEST_LIMIT, Point, Project, Sheet, USUAL_LIMIT, Wire};
use lg_attrs::{Attrs, value_under};
use lg_text::Text;
use sqlite_items::Items;
use std::alloc::Global;

/// The project that a tree says.
pub fn project(alloc: Global, root: &Element) -> Result<Project, CircFault>
    ensures { Gives (λ p. p) result (project_of root.now) }
{
    let libs = libraries(alloc, root)?;
    let options = options(alloc, root)?;
    let sheets = sheets(alloc, root)?;
    let main = main_name(alloc, root)?;
    Ok(Project {
        libs,
        main,
        strict: is_strict(options.as_slice()),
        limit: limit(options.as_slice()),
        sheets,
    })
}

/// The name that the first element `main` gives.
fn main_name(alloc: Global, root: &Element) -> Result<Option<Text>, CircFault>
    ensures { Gives (λ m. m) result (Some (option_and_then (attribute (codes "name")) (child_named (codes "main") root.now))) }
{
    match child(root, "main") {
        Some(main) => copy_of(alloc, value_of(main, "name")),
        None => Ok(None),
    }
}

/// The settings of the first element `options`.
fn options(alloc: Global, root: &Element) -> Result<Items<(Text, Text)>, CircFault>
    ensures { Gives (λ s. s) result (options_of (child_named (codes "options") root.now)) }
{
    match child(root, "options") {
        Some(options) => settings(alloc, options),
        None => Ok(Items::new(alloc)),
    }
}

/// The first element of this name inside.
fn child<'a>(element: &'a Element, name: &str) -> Option<&'a Element>
    ensures { option_copied result ≡ child_named name.now element.now }
{
    for child in element.children.as_slice() {
        if has_name(child, name) {
            return Some(child);
        }
    }
    None
}

fn is_strict(options: &[(Text, Text)]) -> bool
    ensures { result ≡ is_error (value_under (codes "gateUndefined") options.now) }
{
    match value_under("gateUndefined", options) {
        Some(value) => value.as_str() == "error",
        None => false,
    }
}

fn limit(options: &[(Text, Text)]) -> u32
    ensures { result ≡ (limit_of (value_under (codes "simlimit") options.now)).0 }
{
    match value_under("simlimit", options) {
        Some(value) => limit_said(value.as_str()),
        None => USUAL_LIMIT,
    }
}

/// The limit that a text says, and the usual one where it says none.
fn limit_said(text: &str) -> u32
    ensures { result ≡ (limit_of (Some text.now)).0 }
{
    let digits = text.as_bytes();
    if !are_decimal(digits) {
        return USUAL_LIMIT;
    }
    let limit = number(digits, 10);
    if is_limit(limit) { limit } else { USUAL_LIMIT }
}

fn is_limit(limit: u32) -> bool
    ensures { result ≡ is_limit limit }
{
    1 <= limit && limit <= GREATEST_LIMIT
}

fn libraries(alloc: Global, root: &Element) -> Result<Items<(Text, Text)>, CircFault>
    ensures { Gives (λ l. l) result (each lib_of (children_named (codes "lib") root.now)) }
{
    let mut libraries = Items::new(alloc);
    for child in root.children.as_slice() {
        if has_name(child, "lib") {
            libraries.push(library(alloc, child)?)?;
        }
    }
    Ok(libraries)
}

fn library(alloc: Global, element: &Element) -> Result<(Text, Text), CircFault>
    ensures { Gives (λ l. l) result (lib_of element.now) }
{
    let name = copy_under(alloc, element, "name")?;
    let description = match value_of(element, "desc") {
        Some(description) => Text::copy_of(alloc, description.as_str())?,
        None => Text::new(alloc),
    };
    Ok((name, description))
}

fn sheets(alloc: Global, root: &Element) -> Result<Items<Sheet>, CircFault>
    ensures { Gives (λ s. s) result (each sheet_of (children_named (codes "circuit") root.now)) }
{
    let mut sheets = Items::new(alloc);
    for child in root.children.as_slice() {
        if has_name(child, "circuit") {
            sheets.push(sheet(alloc, child)?)?;
        }
    }
    Ok(sheets)
}

fn sheet(alloc: Global, circuit: &Element) -> Result<Sheet, CircFault>
    ensures { Gives (λ s. s) result (sheet_of circuit.now) }
{
    Ok(Sheet {
        name: copy_under(alloc, circuit, "name")?,
        comps: comps(alloc, circuit)?,
        wires: wires(alloc, circuit)?,
    })
}

fn comps(alloc: Global, circuit: &Element) -> Result<Items<Comp>, CircFault>
    ensures { Gives (λ c. c) result (each comp_of (children_named (codes "comp") circuit.now)) }
{
    let mut comps = Items::new(alloc);
    for child in circuit.children.as_slice() {
        if has_name(child, "comp") {
            comps.push(comp(alloc, child)?)?;
        }
    }
    Ok(comps)
}

fn comp(alloc: Global, element: &Element) -> Result<Comp, CircFault>
    ensures { Gives (λ c. c) result (comp_of element.now) }
{
    let name = copy_under(alloc, element, "name")?;
    let loc = point_under(element, "loc")?;
    let list = settings(alloc, element)?;
    let lib = copy_of(alloc, value_of(element, "lib"))?;
    if !loc.is_on_sheet() {
        return Err(CircFault::NotProject);
    }
    Ok(Comp {
        lib,
        name,
        loc,
        attrs: Attrs { list },
    })
}

/// A copy of a value, if there is one.
fn copy_of(alloc: Global, value: Option<&Text>) -> Result<Option<Text>, CircFault>
    ensures { Gives (λ v. v) result (Some (option_copied value.entry)) }
{
    match value {
        Some(value) => Ok(Some(Text::copy_of(alloc, value.as_str())?)),
        None => Ok(None),
    }
}

fn settings(alloc: Global, element: &Element) -> Result<Items<(Text, Text)>, CircFault>
    ensures { Gives (λ s. s) result (settings_of element.now) }
{
    let mut settings = Items::new(alloc);
    for child in element.children.as_slice() {
        if has_name(child, "a") {
            settings.push(setting(alloc, child)?)?;
        }
    }
    Ok(settings)
}

fn setting(alloc: Global, element: &Element) -> Result<(Text, Text), CircFault>
    ensures { Gives (λ s. s) result (setting_of element.now) }
{
    let name = copy_under(alloc, element, "name")?;
    let value = match value_of(element, "val") {
        Some(value) => value,
        None => &element.text,
    };
    Ok((name, Text::copy_of(alloc, value.as_str())?))
}

fn wires(alloc: Global, circuit: &Element) -> Result<Items<Wire>, CircFault>
    ensures { Gives (λ w. w) result (each wire_of (children_named (codes "wire") circuit.now)) }
{
    let mut wires = Items::new(alloc);
    for child in circuit.children.as_slice() {
        if has_name(child, "wire") {
            wires.push(wire(child)?)?;
        }
    }
    Ok(wires)
}

fn wire(element: &Element) -> Result<Wire, CircFault>
    ensures { Gives (λ w. w) result (wire_of element.now) }
{
    let from = point_under(element, "from")?;
    let to = point_under(element, "to")?;
    if from.is_on_sheet() && to.is_on_sheet() {
        Ok(Wire { from, to })
    } else {
        Err(CircFault::NotProject)
    }
}

/// A copy of the value of the element's attribute of this name.
fn copy_under(alloc: Global, element: &Element, name: &str) -> Result<Text, CircFault>
    ensures { Gives (λ t. t) result (attribute name.now element.now) }
{
    let value = value_of(element, name).ok_or(CircFault::NotProject)?;
    Ok(Text::copy_of(alloc, value.as_str())?)
}

fn point_under(element: &Element, name: &str) -> Result<Point, CircFault>
    ensures { Gives (λ p. p) result (option_and_then point_of (attribute name.now element.now)) }
{
    let value = value_of(element, name).ok_or(CircFault::NotProject)?;
    point(value.as_str()).ok_or(CircFault::NotProject)
}

/// Whether the element has this name.
fn has_name(element: &Element, name: &str) -> bool
    ensures { result ≡ is_named name.now element.now }
{
    element.name.as_str() == name
}

/// The value of the element's attribute of this name.
fn value_of<'a>(element: &'a Element, name: &str) -> Option<&'a Text>
    ensures { option_copied result ≡ attribute name.now element.now }
{
    value_under(name, element.attributes.as_slice())
}
