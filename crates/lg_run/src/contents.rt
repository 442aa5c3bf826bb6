//! The bytes of a file, for every verb.

ghost use Rattle.std.specs.Prelude.{◌≡◌, ◌≤◌};
ghost use Rattle.lg_run.specs.Contents.{IsContents};

use crate::stop::{Stop, Stopped};
use lg_io::Files;
use std::alloc::Global;

/// The bytes of a file, of which there may be `most`.
pub fn contents<'a, F: Files>(
    alloc: Global,
    file: &'a str,
    most: usize,
    files: &mut F,
) -> Result<Vec<u8>, Stopped<'a>>
    ensures answers { IsContents (F.seen files.old) (F.seen files.new) file.now most result }
    ensures same_files { (F.seen files.new).held ≡ (F.seen files.old).held }
    ensures never_falls { (F.seen files.old).faults ≤ (F.seen files.new).faults }
{
    match files.read(alloc, file, most) {
        Ok(bytes) => Ok(bytes),
        Err(fault) => Err(Stop::from(fault).about(file)),
    }
}
