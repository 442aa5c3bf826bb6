//! How components are called: their names in the netlist, and the labels of pins.

ghost use Rattle.std.specs.Prelude.{◌≡◌, [], IfOk, codes, unwrap_or};
ghost use Rattle.std.specs.List.{zip};
ghost use Rattle.lg_attrs.specs.Pairs.{value_under};
ghost use Rattle.lg_flatten.specs.Flat.{use_name, pin_labels};

use crate::role::Role;
use lg_circ::Comp;
use lg_text::Text;
use sqlite_items::Items;
use std::alloc::{AllocError, Global};

/// The name of a component of a circuit: `main(130,60) NOT Gate`.
pub fn use_name(alloc: Global, circuit: &str, comp: &Comp) -> Result<Text, AllocError>
    ensures { IfOk result (λ name. name ≡ use_name circuit.now comp.now) }
{
    let x = comp.loc.x;
    let y = comp.loc.y;
    let name = comp.name.as_str();
    Ok(Text::from_string(format!(in alloc; "{circuit}({x},{y}) {name}")?))
}

/// The labels of the pins, in file order; the empty text where one has none.
pub fn labels(alloc: Global, comps: &[Comp], roles: &[Role]) -> Result<Items<Text>, AllocError>
    ensures { IfOk result (λ labels. labels ≡ pin_labels (zip comps.now roles.now)) }
{
    let mut labels = Items::new(alloc);
    for (comp, role) in comps.iter().zip(roles) {
        if let Role::Pin { .. } = role {
            labels.push(label(alloc, comp)?)?;
        }
    }
    Ok(labels)
}

fn label(alloc: Global, comp: &Comp) -> Result<Text, AllocError>
    ensures { IfOk result (λ label. label ≡ unwrap_or (value_under (codes "label") comp.now.attrs.list) []) }
{
    match comp.attrs.value("label") {
        Some(label) => Text::copy_of(alloc, label.as_str()),
        None => Ok(Text::new(alloc)),
    }
}
