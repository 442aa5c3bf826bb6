//! The netlist of the circuits that are built: those of one sheet of pins and gates.

ghost use Rattle.std.specs.Option.{option_copied};
ghost use Rattle.std.specs.Str.{bytes_eq};
ghost use Rattle.std.specs.Prelude.{ℕ, List, true, option_map, unwrap_or, ◌≡◌, ◌+◌, ◌*◌, ◌<◌, ◌^◌, length, All, IsTrue, IfOk, IsErrOf};
ghost use Rattle.std.specs.List.{list_all};
ghost use Rattle.lg_circ.specs.Straight.{is_straight};
ghost use Rattle.lg_netlist.specs.Static.{has_no_clock};
ghost use Rattle.lg_run.specs.OneSheet.{IsBuilt, IsOnlyBuilt, IsNotBuilt, opens_with};
ghost use Rattle.lg_run.specs.declared.one_sheet.EarlyFault.TheVariants.{Memory};

use lg_circ::{Project, Sheet, Wire};
use lg_netlist::Netlist;
use lg_text::Text;
use std::alloc::{AllocError, Global};

/// Why `one_sheet` gives no netlist.
#[derive(Clone, Copy, Debug, PartialEq, Eq)]
pub enum EarlyFault {
    /// The project's circuit is not one that is built.
    NotBuilt,
    /// There was no memory.
    Memory,
}

impl From<AllocError> for EarlyFault {
    ghost from_gives = { λ _ e. e ≡ Memory };

    fn from(_e: AllocError) -> EarlyFault {
        EarlyFault::Memory
    }
}

/// The netlist of the project's one sheet, where it holds just pins, NOT gates, AND and OR gates of two inputs, with
/// attributes of their kinds, and wires along an axis; and where the project names no other sheet to open with and does
/// not ask for errors at unattached inputs.
pub fn one_sheet(alloc: Global, project: &Project) -> Result<Netlist, EarlyFault>
    requires few { All (λ sheet. 3 * length sheet.comps + 2 * length sheet.wires < 2 ^ 32) project.now.sheets }
    ensures found { IfOk result (IsBuilt project.now) }
    ensures only { IfOk result (IsOnlyBuilt project.now) }
    ensures not_built { IsErrOf result EarlyFault.NotBuilt → IsNotBuilt project.now }
    ensures no_clock { IfOk result (λ n. IsTrue (has_no_clock n)) }
{
    let [sheet] = project.sheets.as_slice() else {
        return Err(EarlyFault::NotBuilt);
    };
    if !opens_with(project, sheet) {
        return Err(EarlyFault::NotBuilt);
    }
    if !are_straight(sheet.wires.as_slice()) {
        return Err(EarlyFault::NotBuilt);
    }
    let comps = sheet.comps.as_slice();
    let Some(roles) = lg_flatten::roles(alloc, project.libs.as_slice(), comps)? else {
        return Err(EarlyFault::NotBuilt);
    };
    let netlist = lg_flatten::netlist(alloc, sheet, roles.as_slice())?;
    Ok(netlist)
}

/// Whether the project names no other sheet to open with, and does not ask for the error of unattached inputs.
fn opens_with(project: &Project, sheet: &Sheet) -> bool
    ensures { result ≡ opens_with project.now sheet.now }
{
    !project.strict && names(project.main.as_ref(), sheet)
}

fn names(main: Option<&Text>, sheet: &Sheet) -> bool
    ensures { result ≡ unwrap_or (option_map (λ (name : List ℕ). bytes_eq name sheet.now.name) (option_copied main.entry)) true }
{
    match main {
        Some(main) => main.as_str() == sheet.name.as_str(),
        None => true,
    }
}

fn are_straight(wires: &[Wire]) -> bool
    ensures { result ≡ list_all is_straight wires.now }
{
    wires.iter().all(|wire| wire.is_straight())
}
