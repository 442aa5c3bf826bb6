//! Laws of the definitions.

ghost use Rattle.std.specs.Prelude.{◌≡◌, ◌<◌, ◌^◌, List, length};
ghost use Rattle.std.specs.List.{zip};
ghost use Rattle.lg_circ.specs.declared.project.Sheet.{Sheet};
ghost use Rattle.lg_netlist.specs.declared.netlist.Netlist.{Netlist};
ghost use Rattle.lg_flatten.specs.declared.role.Role.{Role};
ghost use Rattle.lg_flatten.specs.Uses.{Use};
ghost use Rattle.lg_flatten.specs.Flat.{IsNetlistOf};

/// A law: a sheet of fewer than 2 ^ 32 components has just one netlist.
pub fn sheets_have_netlists()
    ensures found { (sheet : Sheet) (roles : List Role) → length sheet.comps < 2 ^ 32 →
        (n : Netlist) × IsNetlistOf sheet (zip sheet.comps roles) n }
    ensures one { (sheet : Sheet) (uses : List Use) (n other : Netlist) →
        IsNetlistOf sheet uses n → IsNetlistOf sheet uses other → other ≡ n }
{}
