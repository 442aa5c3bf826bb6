//! Vectors, read from their text.

ghost use Rattle.std.specs.Prelude.{ℕ, List, ◌≡◌, ◌<◌, ◌⊎◌, length, MatchResult, IfOk, IfErr};
ghost use Rattle.lg_vectors.specs.declared.column.Column.{Column as ColumnValue};
ghost use Rattle.lg_vectors.specs.declared.fault.VectorFault.TheVariants.{TooManyRows, Memory as NoMemory};
ghost use Rattle.lg_vectors.specs.CaredBits.{CaredBits};
ghost use Rattle.lg_vectors.specs.ReadFault.{IsReadFault};
ghost use Rattle.lg_vectors.specs.VectorText.{IsVectorText};

use crate::draft::{Draft, add_line, finish};
use crate::fault::VectorFault;
use crate::line::split_line;
use crate::vector::{MOST_ROWS, Vector};
use sqlite_items::Items;
use std::alloc::Global;

/// The vector that the bytes say.
///
/// The first line that is not blank names the columns, as `NAME` or `NAME[w]`, or says by a lone `-` that there is none.
/// Each later one is a row with a value a column, or a lone `-` under no columns. `#` begins a comment. `NotVector` names the first line that
/// is outside this form, also where there are too many rows before it; a number past 2^32 - 1 is given as that.
/// `TooManyRows` says that the bytes are a vector with more than `MOST_ROWS` rows; those past that are read and not kept.
pub fn read_vector(alloc: Global, bytes: &[u8]) -> Result<Vector, VectorFault>
    ensures found { IfOk result (λ v. IsVectorText bytes.now v.columns v.rows) }
    // A vector is read as its columns and rows, unless there are too many rows or memory runs out.
    // So where one is read, the bytes say no other.
    ensures only { (columns : List ColumnValue) (rows : List (List CaredBits)) → IsVectorText bytes.now columns rows
        → MatchResult result
        (λ v. (v.columns ≡ columns) × (v.rows ≡ rows))
        (λ e. (e ≡ NoMemory) ⊎ ((e ≡ TooManyRows) × (MOST_ROWS < length rows))) }
    ensures fault { IfErr result (IsReadFault MOST_ROWS bytes.now) }
{
    let mut draft = Draft {
        columns: None,
        rows: Items::new(alloc),
        over: false,
    };
    let mut number: u32 = 0;
    let mut rest = bytes;
    while !rest.is_empty() {
        let (line, after) = split_line(rest);
        number = number.saturating_add(1);
        if !add_line(alloc, &mut draft, line)? {
            return Err(VectorFault::NotVector { line: number });
        }
        rest = after;
    }
    finish(alloc, draft)
}
