//! Laws of port tables.

ghost use Rattle.std.specs.Prelude.{◌≡◌, ◌≢◌, ◌⊎◌, ℕ, List};
ghost use Rattle.lg_kinds.specs.declared.fault.PartFault.{PartFault as Fault};
ghost use Rattle.lg_kinds.specs.declared.fault.PartFault.TheVariants.{Memory as NoMemory};
ghost use Rattle.lg_kinds.specs.declared.record.Record.{Record as Said};
ghost use Rattle.lg_kinds.specs.TableFile.{IsTableFile, RefusesTable};

/// A law: but for want of memory, bytes have one answer as the file of a port table. They are one table, or have one
/// first record out of form, and never both.
pub fn files_say_one_table()
    ensures one { (bytes : List ℕ) (records others : List Said) →
        IsTableFile bytes records → IsTableFile bytes others → records ≡ others }
    ensures apart { (bytes : List ℕ) (records : List Said) (fault : Fault) → fault ≢ NoMemory →
        RefusesTable bytes fault → IsTableFile bytes records → ⊥ }
    ensures one_fault { (bytes : List ℕ) (fault other : Fault) → fault ≢ NoMemory → other ≢ NoMemory →
        RefusesTable bytes fault → RefusesTable bytes other → fault ≡ other }
    ensures some { (bytes : List ℕ) →
        ((records : List Said) × IsTableFile bytes records)
        ⊎ ((fault : Fault) × (fault ≢ NoMemory) × RefusesTable bytes fault) }
{}
