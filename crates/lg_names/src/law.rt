//! Laws of naming and of numbering: each has one outcome, and has one.

ghost use Rattle.std.specs.Prelude.{◌≡◌, ℕ, ◌<◌, ◌^◌, List, [], length};
ghost use Rattle.lg_names.specs.Names.{AreNames};
ghost use Rattle.lg_names.specs.Numbering.{IsNumbering};

/// Labels have one naming.
#[tactic(auto, using(crate::proofs::OneNaming::one_naming))]
pub fn one_naming()
    ensures { (taken labels names other : List (List ℕ)) →
        AreNames taken labels names → AreNames taken labels other → names ≡ other }
{}

/// Labels have one numbering.
pub fn one_numbering()
    ensures { (labels numbers other : List ℕ) (count count_other : ℕ) →
        IsNumbering ◌≡◌ labels numbers count → IsNumbering ◌≡◌ labels other count_other →
        (numbers ≡ other) × (count ≡ count_other) }
{}

/// All labels have numbers.
pub fn labels_have_numbers()
    ensures { (labels : List ℕ) → (numbers : List ℕ) × (count : ℕ) × IsNumbering ◌≡◌ labels numbers count }
{}

/// Labels have names, where there are fewer than 2 ^ 63.
pub fn labels_have_names()
    ensures { (labels : List (List ℕ)) → length labels < 2 ^ 63 → (names : List (List ℕ)) × AreNames [] labels names }
{}
