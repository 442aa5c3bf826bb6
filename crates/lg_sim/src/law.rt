//! Laws of the definitions.

ghost use Rattle.std.specs.Prelude.{◌≡◌, ℕ, ◌≤◌, List, IsTrue};
ghost use Rattle.std.specs.List.{AllByRecursion};
ghost use Rattle.lg_timing.specs.Circuit.{Word};
ghost use Rattle.lg_timing.specs.Session.{Table};
ghost use Rattle.lg_netlist.specs.declared.netlist.Netlist.{Netlist as Circuit};
ghost use Rattle.lg_netlist.specs.Acceptance.{IsAccepted};
ghost use Rattle.lg_netlist.specs.Chain.{IsLongest};
ghost use Rattle.lg_netlist.specs.Static.{has_no_clock, input_pins, IsDefinedRow};
ghost use Rattle.lg_sim.specs.Settled.{SettlesOnRows};

/// An accepted netlist has exactly one longest delay.
pub fn accepted_netlists_have_one_longest_delay()
    ensures { (n : Circuit) → IsAccepted n → (longest : ℕ) × IsLongest n longest × ((other : ℕ) → IsLongest n other → other ≡ longest) }
{}

/// An accepted netlist without clocks settles: each list of rows of defined inputs has exactly one session table at each limit
/// that its longest chain keeps to; no row oscillates, each settles within that delay, and its outputs are those of the
/// static rows.
pub fn accepted_netlists_settle()
    ensures { (n : Circuit) (longest limit : ℕ) (rows : List (List Word)) →
        IsTrue (has_no_clock n) → IsAccepted n → IsLongest n longest → longest ≤ limit →
        AllByRecursion (IsDefinedRow (input_pins n)) rows → (table : Table) × SettlesOnRows n longest limit rows table }
{}
