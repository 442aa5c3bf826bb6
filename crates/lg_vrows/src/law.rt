//! Laws of what is due.

ghost use Rattle.std.specs.Prelude.{◌≡◌, ◌≢◌, ◌≤◌, ◌⊎◌, ℕ, List, All, length};
ghost use Rattle.lg_vtree.specs.declared.module.Module.{Module as Tree};
ghost use Rattle.lg_vmeaning.specs.Valid.{IsValid};
ghost use Rattle.lg_vrows.specs.Rows.{AreBoundRows, IsDefinedRow};
ghost use Rattle.lg_vrows.specs.Due.{IsValidText, IsModuleFault, IsRowsText, IsRowsFault};
ghost use Rattle.lg_vrows.specs.declared.fault.ModuleFault.{ModuleFault as NoModule};
ghost use Rattle.lg_vrows.specs.declared.fault.ModuleFault.TheVariants.{Memory as NoMemory};
ghost use Rattle.lg_vrows.specs.declared.fault.RowsFault.{RowsFault as NoRows};
ghost use Rattle.lg_vrows.specs.declared.fault.RowsFault.TheVariants.{Memory as NoMemoryLeft};

/// But for want of memory, bytes have at most one answer as a module: one valid module, or one fault.
pub fn modules_have_one_answer()
    ensures one { (bytes : List ℕ) (m other : Tree) → IsValidText bytes m → IsValidText bytes other → m ≡ other }
    ensures apart { (bytes : List ℕ) (m : Tree) (fault : NoModule) → fault ≢ NoMemory →
        IsModuleFault bytes fault → IsValidText bytes m → ⊥ }
    ensures one_fault { (bytes : List ℕ) (fault other : NoModule) → fault ≢ NoMemory → other ≢ NoMemory →
        IsModuleFault bytes fault → IsModuleFault bytes other → fault ≡ other }
{}

/// But for want of memory, bytes have at most one answer as rows for a valid module: one text, or one fault.
pub fn rows_have_one_answer()
    ensures one { (m : Tree) → IsValid m → (bytes text other : List ℕ) →
        IsRowsText m bytes text → IsRowsText m bytes other → text ≡ other }
    ensures apart { (m : Tree) → IsValid m → (bytes text : List ℕ) (fault : NoRows) → fault ≢ NoMemoryLeft →
        IsRowsFault m bytes fault → IsRowsText m bytes text → ⊥ }
    ensures one_fault { (m : Tree) → IsValid m → (bytes : List ℕ) (fault other : NoRows) → fault ≢ NoMemoryLeft → other ≢ NoMemoryLeft →
        IsRowsFault m bytes fault → IsRowsFault m bytes other → fault ≡ other }
{}

/// Rows that are bound to the inputs of a valid module and defined have a text of outputs.
pub fn defined_rows_have_outputs()
    ensures { (m : Tree) → IsValid m → (bytes : List ℕ) (given : AreBoundRows m bytes) → All IsDefinedRow given.rows →
        (text : List ℕ) × IsRowsText m bytes text }
{}

/// But for want of memory, bytes within the reader's length are a text of a valid module or have a fault as one.
pub fn texts_are_modules_or_not()
    ensures { (bytes : List ℕ) → length bytes ≤ 134217728 →
        ((m : Tree) × IsValidText bytes m) ⊎ ((fault : NoModule) × (fault ≢ NoMemory) × IsModuleFault bytes fault) }
{}

/// But for want of memory, bytes have a text of outputs as rows for a valid module, or a fault as these.
pub fn texts_are_rows_or_not()
    ensures { (m : Tree) → IsValid m → (bytes : List ℕ) →
        ((text : List ℕ) × IsRowsText m bytes text) ⊎ ((fault : NoRows) × (fault ≢ NoMemoryLeft) × IsRowsFault m bytes fault) }
{}
