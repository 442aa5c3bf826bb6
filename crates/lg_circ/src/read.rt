//! Projects, read from their text.

ghost use Rattle.std.specs.Prelude.{◌+◌, ◌<◌, ◌≤◌, ◌↔◌, length, All, IfOk, OnOk, IsErrOf};
ghost use Rattle.lg_circ.specs.Bounds.{greatest_length};
ghost use Rattle.lg_circ.specs.Grammar.{SpellsText};
ghost use Rattle.lg_circ.specs.Grown.{Makes, IsTreeOf, IsProjectOf};
ghost use Rattle.lg_circ.specs.Project.{SaysProject, IsTooDeep, IsNoProject, ReadsAs, RefusesAs};

use crate::element::Element;
use crate::fault::CircFault;
use crate::judge::judge;
use crate::meaning::project;
use crate::project::Project;
use crate::tree::tree;
use std::alloc::Global;

/// How many bytes the text of a project has at most.
pub const GREATEST_LENGTH: usize = 8_388_608;

/// The project that the bytes say: all of them, in UTF-8, at most `GREATEST_LENGTH`.
///
/// `TooLong` says that there are more. `TooDeep` says that they spell elements in more than 64 levels, whatever these say.
/// `NotProject` says that they spell no elements, or elements that are no project.
pub fn read_project(alloc: Global, bytes: &[u8]) -> Result<Project, CircFault>
    // What is read is what the bytes say.
    ensures found { IfOk result (λ p. SaysProject bytes.now p) }
    ensures within { OnOk result (length bytes.now ≤ greatest_length) }
    ensures few { IfOk result (λ project. All (λ sheet. length sheet.comps + length sheet.wires ≤ length bytes.now) project.sheets) }
    // A project is read as what it says, unless memory runs out.
    ensures only { (p : Project) →
        SaysProject bytes.now p → length bytes.now ≤ greatest_length → ReadsAs p result }

    // Each refusal comes just where its cause is there, in this order, unless memory runs out.
    ensures too_long { IsErrOf result CircFault.TooLong ↔ (greatest_length < length bytes.now) }
    ensures too_deep { IsErrOf result CircFault.TooDeep →
        (length bytes.now ≤ greatest_length) × IsTooDeep bytes.now }
    ensures deep_refused { IsTooDeep bytes.now → length bytes.now ≤ greatest_length → RefusesAs CircFault.TooDeep result }
    ensures not_project { IsErrOf result CircFault.NotProject →
        (length bytes.now ≤ greatest_length) × IsNoProject bytes.now }
    ensures others_refused { IsNoProject bytes.now → length bytes.now ≤ greatest_length → RefusesAs CircFault.NotProject result }
{
    if bytes.len() > GREATEST_LENGTH {
        return Err(CircFault::TooLong);
    }
    match str::from_utf8(bytes) {
        Ok(text) => said_by(alloc, text),
        Err(_) => Err(CircFault::NotProject),
    }
}

fn said_by(alloc: Global, text: &str) -> Result<Project, CircFault>
    ensures { IsProjectOf text.now result }
{
    let root = whole_tree(alloc, text)?;
    project(alloc, &root)
}

fn whole_tree(alloc: Global, text: &str) -> Result<Element, CircFault>
    ensures { IsTreeOf text.now result }
{
    match tree(alloc, text) {
        Ok(root) => Ok(root),
        Err(fault) => refuse(alloc, text, fault),
    }
}

// Why a text gives no tree. One whose tree is too deep to be built is read a second time, without building it, since it may be
// no project at all.
fn refuse(alloc: Global, text: &str, fault: CircFault) -> Result<Element, CircFault>
    requires { Makes (λ root. SpellsText root text.now) (Err fault) }
    ensures { IsTreeOf text.now result }
{
    match fault {
        CircFault::TooDeep => {
            judge(alloc, text)?;
            Err(CircFault::TooDeep)
        }
        other => Err(other),
    }
}
