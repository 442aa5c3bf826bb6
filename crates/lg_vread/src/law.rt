//! A text says one module at most.

ghost use Rattle.std.specs.Prelude.{List, ℕ, ◌≡◌};
ghost use Rattle.lg_vtree.specs.declared.module.Module.{Module as Tree};
ghost use Rattle.lg_vtree.specs.Grammar.{IsModuleText};

/// A law: a text is a text of at most one module.
pub fn one_module()
    ensures { (bytes : List ℕ) (m n : Tree) → IsModuleText bytes m → IsModuleText bytes n → m ≡ n }
{}
