//! Rows of values, and the lines of a vector taken one by one.

ghost use Rattle.std.specs.Prelude.{ℕ, List, ◌≡◌, ◌≤◌, length, map, All, IfOk, IfSome, MatchOption};
ghost use Rattle.lg_value.specs.Word.{IsWidth};
ghost use Rattle.lg_vectors.specs.declared.column.Column.{Column as ColumnValue};
ghost use Rattle.lg_vectors.specs.CaredBits.{CaredBits};
ghost use Rattle.lg_vectors.specs.Rows.{IsRowOf};
ghost use Rattle.lg_vectors.specs.VectorText.{words, AreRow};

use crate::cared::Cared;
use crate::column::Column;
use crate::heading::is_dash;
use crate::line::next_word;
use crate::value::read_value;
use sqlite_items::Items;
use std::alloc::{AllocError, Global};

// The row that the words of a text are.
pub fn read_row(
    alloc: Global,
    columns: &[Column],
    text: &[u8],
) -> Result<Option<Items<Cared>>, AllocError>
    requires { All (λ c. IsWidth c.width) columns.now }
    ensures row { IfOk result (λ read. MatchOption read
        ((row : List CaredBits) → AreRow columns.now (words text.now) row → ⊥)
        (λ row. AreRow columns.now (words text.now) row)) }
    ensures widths { IfOk result (λ read. IfSome read (λ row. IsRowOf columns.now row)) }
{
    let mut row = Items::new(alloc);
    if columns.is_empty() {
        return Ok(if is_dash(text) { Some(row) } else { None });
    }
    let mut rest = text;
    for column in columns {
        let Some((word, after)) = next_word(rest) else {
            return Ok(None);
        };
        let Some(value) = read_value(word, column.width) else {
            return Ok(None);
        };
        row.push(value)?;
        rest = after;
    }
    match next_word(rest) {
        Some(_) => Ok(None),
        None => Ok(Some(row)),
    }
}
