//! Valid modules, read from their text.

ghost use Rattle.std.specs.Prelude.{IfOk, IfErr};
ghost use Rattle.lg_vrows.specs.Due.{IsValidText, IsModuleFault};

use crate::fault::ModuleFault;
use lg_vmeaning::{Valid, valid};
use lg_vread::read_module;
use std::alloc::Global;

/// The valid module that the bytes are a text of.
pub fn valid_module(alloc: Global, bytes: &[u8]) -> Result<Valid, ModuleFault>
    ensures found { IfOk result (IsValidText bytes.now) }
    ensures fault { IfErr result (IsModuleFault bytes.now) }
{
    let module = read_module(alloc, bytes)?;
    Ok(valid(alloc, module)?)
}
