//! What is printed is a text of its module.

ghost use Rattle.lg_vtree.specs.declared.module.Module.{Module as Tree};
ghost use Rattle.lg_vtree.specs.Grammar.{IsTree, IsModuleText};
ghost use Rattle.lg_vtree.specs.Printed.{module_text};

/// A law: what is printed for a module is a text of it.
pub fn printed_text()
    ensures { (m : Tree) → IsTree m → IsModuleText (module_text m) m }
{}
