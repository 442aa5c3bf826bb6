//! What a command makes: a text, or a stop.

ghost use Rattle.std.specs.Prelude.{◌≡◌};
ghost use Rattle.lg_run.specs.Answered.{Answers};
ghost use Rattle.lg_run.specs.Words.{command};

use crate::export::export;
use crate::stop::Stopped;
use crate::vrun::vrun;
use crate::words::Asked;
use lg_io::Files;
use std::alloc::Global;

/// The text that a command asks for.
pub fn text_of<'a, F: Files>(
    alloc: Global,
    asked: &Asked<'a>,
    files: &mut F,
) -> Result<Vec<u8>, Stopped<'a>>
    ensures answers { Answers (F.seen files.old) (F.seen files.new) (command asked.now) result }
    ensures same_files { (F.seen files.new).held ≡ (F.seen files.old).held }
{
    match asked {
        Asked::Export(file) => export(alloc, file, files),
        Asked::Vrun(of_module, of_rows) => vrun(alloc, of_module, of_rows, files),
    }
}
