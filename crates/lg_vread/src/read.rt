//! Modules, read from their text.

ghost use Rattle.std.specs.Prelude.{◌≡◌, IfOk, IsErrOf, MatchResult};
ghost use Rattle.lg_vread.specs.declared.fault.ReadFault.TheVariants.{Memory as NoMemory};
ghost use Rattle.lg_vtree.specs.declared.module.Module.{Module as Tree};
ghost use Rattle.lg_vread.specs.Limits.{IsWithinLimits};

use crate::fault::ReadFault;
use crate::reader::Reader;
use lg_vtree::Module;
use std::alloc::Global;

/// How many bytes the text of a module has at most.
pub const GREATEST_LENGTH: usize = 134_217_728;

/// How deep an expression is at most.
pub const GREATEST_DEPTH: usize = 100;

/// The module that the bytes are a text of: all of them, at most `GREATEST_LENGTH`, with expressions at most `GREATEST_DEPTH` deep.
///
/// `NotSubset` says that they are a text of none within these limits.
pub fn read_module(alloc: Global, bytes: &[u8]) -> Result<Module, ReadFault>
    // What is read has these bytes.
    ensures found { IfOk result (λ m. IsWithinLimits bytes.now m) }
    // A module is read from each of its texts, unless memory runs out. So a text has at most one module.
    ensures only { (m : Tree) → IsWithinLimits bytes.now m → MatchResult result (λ n. n ≡ m) (λ e. e ≡ NoMemory) }
    ensures not_subset { IsErrOf result ReadFault.NotSubset → (m : Tree) → ¬ (IsWithinLimits bytes.now m) }
{
    if bytes.len() > GREATEST_LENGTH {
        return Err(ReadFault::NotSubset);
    }
    let mut reader = Reader::new(bytes);
    reader.module(alloc, GREATEST_DEPTH)
}
