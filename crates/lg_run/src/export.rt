//! The verb `export`: the module of a circuit.

ghost use Rattle.std.specs.Prelude.{◌≡◌};
ghost use Rattle.lg_run.specs.Answered.{Makes, Answers};
ghost use Rattle.lg_run.specs.Words.{Export};

use crate::contents::contents;
use crate::one_sheet::one_sheet;
use crate::stop::{Stop, Stopped};
use lg_circ::{GREATEST_LENGTH, read_project};
use lg_io::Files;
use std::alloc::Global;

/// The text of the module of the circuit in a project file.
pub fn export<'a, F: Files>(
    alloc: Global,
    file: &'a str,
    files: &mut F,
) -> Result<Vec<u8>, Stopped<'a>>
    ensures answers { Answers (F.seen files.old) (F.seen files.new) (Export file.now) result }
    ensures same_files { (F.seen files.new).held ≡ (F.seen files.old).held }
{
    let bytes = contents(alloc, file, GREATEST_LENGTH, files)?;
    match module_text(alloc, bytes.as_slice()) {
        Ok(text) => Ok(text),
        Err(stop) => Err(stop.about(file)),
    }
}

// The text of the module of the circuit in some bytes.
fn module_text(alloc: Global, bytes: &[u8]) -> Result<Vec<u8>, Stop>
    ensures { Makes bytes.now result }
{
    let project = read_project(alloc, bytes)?;
    let netlist = one_sheet(alloc, &project)?;
    let module = lg_export::export(alloc, &netlist)?;
    Ok(lg_vprint::print(alloc, &module)?)
}
