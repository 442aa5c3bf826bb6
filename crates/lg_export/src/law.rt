//! That an exported module means what its netlist does, said without a call.

ghost use Rattle.std.specs.Prelude.{IsTrue};
ghost use Rattle.lg_netlist.specs.declared.netlist.Netlist.{Netlist as Circuit};
ghost use Rattle.lg_netlist.specs.Acceptance.{IsAccepted};
ghost use Rattle.lg_netlist.specs.Static.{has_no_clock};
ghost use Rattle.lg_export.specs.Agreement.{Agrees};
ghost use Rattle.lg_export.specs.InTime.{AgreesInTime};
ghost use Rattle.lg_export.specs.Layout.{module_of};

/// A law: the module of an accepted netlist without clocks agrees with it, without time and in time.
pub fn accepted_netlists_have_agreeing_modules()
    ensures agrees { (n : Circuit) → IsTrue (has_no_clock n) → IsAccepted n → Agrees n (module_of n) }
    ensures in_time { (n : Circuit) → IsTrue (has_no_clock n) → IsAccepted n → AgreesInTime n (module_of n) }
{}
