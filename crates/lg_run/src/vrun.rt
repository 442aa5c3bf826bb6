//! The verb `vrun`: the outputs of a module on rows.

ghost use Rattle.std.specs.Prelude.{◌≡◌};
ghost use Rattle.lg_run.specs.Answered.{Answers};
ghost use Rattle.lg_run.specs.Words.{Vrun};

use crate::contents::contents;
use crate::stop::{Stop, Stopped};
use lg_io::Files;
use lg_vrows::{rows_text, valid_module};
use std::alloc::Global;

/// How many bytes a file with a module has at most.
pub const MODULE_LENGTH: usize = 134_217_728;

/// How many bytes a file with rows has at most.
pub const ROWS_LENGTH: usize = 16_777_216;

/// The text of the outputs of the module in one file on the rows in another.
pub fn vrun<'a, F: Files>(
    alloc: Global,
    of_module: &'a str,
    of_rows: &'a str,
    files: &mut F,
) -> Result<Vec<u8>, Stopped<'a>>
    ensures answers { Answers (F.seen files.old) (F.seen files.new) (Vrun of_module.now of_rows.now) result }
    ensures same_files { (F.seen files.new).held ≡ (F.seen files.old).held }
{
    let text = contents(alloc, of_module, MODULE_LENGTH, files)?;
    let module = match valid_module(alloc, text.as_slice()) {
        Ok(module) => module,
        Err(fault) => return Err(Stop::from(fault).about(of_module)),
    };
    let rows = contents(alloc, of_rows, ROWS_LENGTH, files)?;
    match rows_text(alloc, &module, rows.as_slice()) {
        Ok(text) => Ok(text),
        Err(fault) => Err(Stop::from(fault).about(of_rows)),
    }
}
