//! Laws of texts of vectors, and of columns and pins: one of two things stands, for all of them.

ghost use Rattle.std.specs.Prelude.{◌≡◌, ◌≢◌, ◌⊎◌, ℕ, List, []};
ghost use Rattle.lg_vectors.specs.declared.column.Column.{Column as Named};
ghost use Rattle.lg_vectors.specs.declared.fault.VectorFault.{VectorFault as Fault};
ghost use Rattle.lg_vectors.specs.declared.fault.VectorFault.TheVariants as fault;
ghost use Rattle.lg_vectors.specs.declared.pin.PinShape.{PinShape as Pin};
ghost use Rattle.lg_vectors.specs.Binding.{AreBound, HaveColumns, IsBindFault, IsMissing};
ghost use Rattle.lg_vectors.specs.CaredBits.{CaredBits};
ghost use Rattle.lg_vectors.specs.VectorText.{IsVectorText, IsFirstOutside};

/// A law: bytes are a vector, or have a first line outside the form.
pub fn texts_are_vectors_or_not()
    ensures { (bytes : List ℕ) →
        ((columns : List Named) × (rows : List (List CaredBits)) × IsVectorText bytes columns rows)
        ⊎ ((number : ℕ) × IsFirstOutside bytes number) }
{}

/// A law: columns are bound to pins, each pin with a column of its own, or there is a reason why not.
pub fn columns_are_bound_or_not()
    ensures { (pins : List Pin) (columns : List Named) →
        ((places : List ℕ) × AreBound [] pins columns places × HaveColumns columns pins)
        ⊎ ((why : Fault) × (why ≢ fault.Memory) × (IsBindFault pins columns why ⊎ IsMissing pins columns why)) }
{}
