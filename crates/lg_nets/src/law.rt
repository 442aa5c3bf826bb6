//! Laws of the definitions.

ghost use Rattle.std.specs.Prelude.{ℕ, Bool, List};
ghost use Rattle.lg_circ.specs.declared.project.Point.{Point};
ghost use Rattle.lg_circ.specs.declared.project.Wire.{Wire};
ghost use Rattle.lg_nets.specs.Joined.{AreLabels, AreAttached};

/// A law: all wires and ports have labels, and flags of what is attached.
pub fn sheets_have_labels()
    ensures labels { (wires : List Wire) (ports : List Point) → (labels : List ℕ) × AreLabels wires ports labels }
    ensures attached { (wires : List Wire) (ports : List Point) → (flags : List Bool) × AreAttached wires ports flags }
{}
