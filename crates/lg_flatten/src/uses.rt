//! What the components of a sheet are.

ghost use Rattle.std.specs.Prelude.{◌≡◌, IfOk, IfSome, option_map};
ghost use Rattle.std.specs.Option.{option_copied};
ghost use Rattle.lg_flatten.specs.Uses.{description, is_from, pin_role, gate_size, not_sizes, wide_sizes, gate_role, role_of, roles_of, AreRoles};

use crate::role::Role;
use lg_circ::{Comp, value_under};
use lg_netlist::Cell;
use lg_text::Text;
use std::alloc::{AllocError, Global};

/// What the components of a sheet are, in file order, or none where one of them is not built yet. The libraries are
/// the project's, each with its name and its description.
pub fn roles(
    alloc: Global,
    libs: &[(Text, Text)],
    comps: &[Comp],
) -> Result<Option<Vec<Role>>, AllocError>
    ensures value { IfOk result (λ found. option_map (λ roles. roles.items) found ≡ roles_of libs.now comps.now) }
    ensures known { IfOk result (λ found. IfSome found (λ roles. AreRoles comps.now roles.items)) }
{
    let mut roles = Vec::with_capacity(alloc, comps.len())?;
    for comp in comps {
        match role_of(libs, comp) {
            Some(role) => roles.push(role)?,
            None => return Ok(None),
        }
    }
    Ok(Some(roles))
}

fn role_of(libs: &[(Text, Text)], comp: &Comp) -> Option<Role>
    ensures { result ≡ role_of libs.now comp.now }
{
    let attrs = &comp.attrs;
    let name = comp.name.as_str();
    if is_from("#Wiring", libs, comp) && name == "Pin" && attrs.has_only(&["label", "output"]) {
        pin_role(attrs.value("output"))
    } else if is_from("#Gates", libs, comp) && attrs.has_only(&["size"]) {
        gate_role(name, attrs.value("size"))
    } else {
        None
    }
}

// Whether the component's library has this description.
fn is_from(wanted: &str, libs: &[(Text, Text)], comp: &Comp) -> bool
    ensures { result ≡ is_from wanted.now libs.now comp.now }
{
    match description(libs, comp) {
        Some(text) => text.as_str() == wanted,
        None => false,
    }
}

fn description<'a>(libs: &'a [(Text, Text)], comp: &Comp) -> Option<&'a Text>
    ensures { option_copied result ≡ description libs.now comp.now }
{
    match &comp.lib {
        Some(lib) => value_under(lib.as_str(), libs),
        None => None,
    }
}

fn pin_role(output: Option<&Text>) -> Option<Role>
    ensures { result ≡ pin_role (option_copied output.entry) }
{
    let Some(flag) = output else {
        return Some(Role::Pin { input: true });
    };
    match flag.as_str() {
        "true" => Some(Role::Pin { input: false }),
        "false" => Some(Role::Pin { input: true }),
        _ => None,
    }
}

fn gate_role(name: &str, size: Option<&Text>) -> Option<Role>
    ensures { result ≡ gate_role name.now (option_copied size.entry) }
{
    let (cell, size) = match name {
        "NOT Gate" => (Cell::Not, not_size(size)?),
        "AND Gate" => (Cell::And, wide_size(size)?),
        "OR Gate" => (Cell::Or, wide_size(size)?),
        _ => return None,
    };
    Some(Role::Gate { cell, size })
}

fn not_size(size: Option<&Text>) -> Option<u32>
    ensures { result ≡ gate_size 30 not_sizes (option_copied size.entry) }
{
    let Some(text) = size else {
        return Some(30);
    };
    match text.as_str() {
        "20" => Some(20),
        "30" => Some(30),
        _ => None,
    }
}

// The size of a gate of several inputs.
fn wide_size(size: Option<&Text>) -> Option<u32>
    ensures { result ≡ gate_size 50 wide_sizes (option_copied size.entry) }
{
    let Some(text) = size else {
        return Some(50);
    };
    match text.as_str() {
        "30" => Some(30),
        "50" => Some(50),
        "70" => Some(70),
        _ => None,
    }
}
