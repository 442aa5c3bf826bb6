//! Laws of the definitions.

ghost use Rattle.std.specs.Prelude.{◌≡◌, ℕ, false, ◌⊎◌, List, IsTrue};
ghost use Rattle.lg_value.specs.declared.bit.Bit.{Bit};
ghost use Rattle.lg_value.specs.declared.bit.Bit.TheVariants.{Zero, One};
ghost use Rattle.lg_netlist.specs.Acceptance.{IsRefused, IsAccepted, is_undriven};
ghost use Rattle.lg_netlist.specs.Cell.{State};
ghost use Rattle.lg_netlist.specs.Static.{has_no_clock, input_pins, AreTheStaticValues, IsDefinedRow};
ghost use Rattle.lg_netlist.specs.declared.acceptance.NotAccepted.{NotAccepted};
ghost use Rattle.lg_netlist.specs.declared.netlist.Netlist.{Netlist as Circuit};

/// Each netlist is accepted, or refused for some reason.
pub fn netlists_are_judged()
    ensures { (n : Circuit) → IsAccepted n ⊎ ((fault : NotAccepted) × IsRefused n fault) }
{}

/// A netlist is refused for one reason, with one set of names; and one that is accepted for none.
pub fn one_refusal()
    ensures one { (n : Circuit) (fault other : NotAccepted) → IsRefused n fault → IsRefused n other → fault ≡ other }
    ensures accepted { (n : Circuit) (fault : NotAccepted) → IsAccepted n → IsRefused n fault → ⊥ }
{}

/// An accepted netlist without clocks has static values for each row of defined inputs: on the nets that something drives
/// just these, all defined.
pub fn accepted_netlists_have_static_values()
    ensures { (n : Circuit) (states : List State) (row : List (List Bit)) →
        IsTrue (has_no_clock n) → IsAccepted n → IsDefinedRow (input_pins n) row →
        (value : ℕ → Bit) × AreTheStaticValues n states row value
        × ((net : ℕ) → is_undriven n net ≡ false → (value net ≡ Zero) ⊎ (value net ≡ One)) }
{}
