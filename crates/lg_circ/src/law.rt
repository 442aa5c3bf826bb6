//! Laws of the definitions.

ghost use Rattle.std.specs.Prelude.{List, ℕ, ◌≡◌, ◌+◌, ◌≤◌, ◌⊎◌, length, All};
ghost use Rattle.lg_circ.specs.declared.element.Element.{Element};
ghost use Rattle.lg_circ.specs.declared.project.Project.{Project};
ghost use Rattle.lg_circ.specs.Grammar.{SpellsText};
ghost use Rattle.lg_circ.specs.Project.{SaysProject};

/// A text has at most one tree.
pub fn one_tree()
    ensures { (bytes : List ℕ) (d e : Element) →
        SpellsText d bytes → SpellsText e bytes → d ≡ e }
{}

/// All bytes say a project or none, and say one project at most, with no more components and wires
/// on a sheet than there are bytes.
pub fn texts_say_or_not()
    ensures decided { (bytes : List ℕ) → ((project : Project) × SaysProject bytes project)
        ⊎ ((project : Project) → SaysProject bytes project → ⊥) }
    ensures one { (bytes : List ℕ) (p q : Project) → SaysProject bytes p → SaysProject bytes q → p ≡ q }
    ensures few { (bytes : List ℕ) (p : Project) → SaysProject bytes p
        → All (λ sheet. length sheet.comps + length sheet.wires ≤ length bytes) p.sheets }
{}
