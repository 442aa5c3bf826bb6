//! The names of what a module keeps from row to row.

ghost use Rattle.std.specs.Prelude.{◌≡◌, map, IfOk};
ghost use Rattle.lg_vrules.specs.Things.{names_of};
ghost use Rattle.lg_vmeaning.specs.Ports.{is_kept_as};

use lg_vrules::{Sort, thing_of_decl};
use lg_vtree::{Memory, Module};
use std::alloc::Global;

/// How a number is kept.
#[derive(Clone, Copy)]
pub enum Storage {
    Register,
    Memory,
}

impl Storage {
    fn has(self, sort: Sort) -> bool
        ensures { result ≡ is_kept_as self sort }
    {
        match self {
            Storage::Register => matches!(sort, Sort::Reg),
            Storage::Memory => matches!(sort, Sort::Memory(_)),
        }
    }
}

/// The names of registers, or those of memories, in the order of their declarations.
pub fn kept_names(alloc: Global, module: &Module, storage: Storage) -> Result<Vec<&str>, Memory>
    ensures { IfOk result (λ names. map (λ name. name.now) names.items ≡ names_of (is_kept_as storage) «module».now) }
{
    let mut names = Vec::new(alloc);
    for decl in module.decls.as_slice() {
        let (name, thing) = thing_of_decl(decl);
        if storage.has(thing.sort) {
            names.push(name.as_str())?;
        }
    }
    Ok(names)
}
