//! Laws of what is due.

ghost use Rattle.std.specs.Prelude.{◌≡◌, ◌≤◌, ℕ, List, Some, length, All, IsTrue};
ghost use Rattle.lg_export.specs.Layout.{module_of};
ghost use Rattle.lg_netlist.specs.declared.netlist.Netlist.{Netlist as Circuit};
ghost use Rattle.lg_netlist.specs.Acceptance.{IsAccepted};
ghost use Rattle.lg_netlist.specs.Static.{has_no_clock};
ghost use Rattle.lg_vtree.specs.Grammar.{IsModuleText};
ghost use Rattle.lg_vtree.specs.declared.module.Module.{Module as Tree};
ghost use Rattle.lg_vrows.specs.Due.{IsValidText};
ghost use Rattle.lg_vrows.specs.Rows.{AreBoundRows, IsDefinedRow};
ghost use Rattle.lg_run.specs.declared.status.Status.{Status};
ghost use Rattle.lg_run.specs.declared.status.Status.TheVariants.{Done};
ghost use Rattle.lg_run.specs.Contents.{Held};
ghost use Rattle.lg_run.specs.Due.{Due, Writes, module_length, rows_length, IsDue};
ghost use Rattle.lg_run.specs.StaticText.{IsStaticText};
ghost use Rattle.lg_run.specs.Words.{Vrun, command_of};

/// For all words and contents one thing is due, and no other.
pub fn one_is_due()
    ensures one { (words : List (List ℕ)) (held : Held) (due other : Due) → IsDue words (Some held) due → IsDue words (Some held) other → other ≡ due }
    ensures some { (words : List (List ℕ)) (held : Held) → (due : Due) × IsDue words (Some held) due }
{}

/// Where one file holds a valid module, and the other rows that are bound to its inputs and defined, both within the limits,
/// `vrun` has a text that is due.
pub fn defined_rows_have_a_due_text()
    ensures { (words : List (List ℕ)) (held : Held) (of_module of_rows module_bytes rows_bytes : List ℕ) (m : Tree) →
        command_of words ≡ Some (Vrun of_module of_rows) →
        held of_module ≡ Some module_bytes → length module_bytes ≤ module_length → IsValidText module_bytes m →
        held of_rows ≡ Some rows_bytes → length rows_bytes ≤ rows_length → (given : AreBoundRows m rows_bytes) → All IsDefinedRow given.rows →
        (text : List ℕ) × IsDue words (Some held) (Writes Done text) }
{}

/// Of an accepted netlist without clocks, a text of its module of at most 134,217,728 bytes is one of a valid module, within
/// the limits of the reader. Where one file holds such a text, as `export` writes it, and the other rows, the text that is
/// due for `vrun` shows the static rows of the netlist.
pub fn exported_modules_give_static_rows()
    ensures read { (n : Circuit) (text : List ℕ) → IsTrue (has_no_clock n) → IsAccepted n →
        IsModuleText text (module_of n) → length text ≤ module_length → IsValidText text (module_of n) }
    ensures rows { (n : Circuit) (text : List ℕ) → IsTrue (has_no_clock n) → IsAccepted n → IsModuleText text (module_of n) →
        (words : List (List ℕ)) (held : Held) (of_module of_rows rows : List ℕ) →
        command_of words ≡ Some (Vrun of_module of_rows) → held of_module ≡ Some text → held of_rows ≡ Some rows →
        (status : Status) (printed : List ℕ) → IsDue words (Some held) (Writes status printed) → IsStaticText n rows printed }
{}
