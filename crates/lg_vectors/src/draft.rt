//! What is known of a vector behind some of its lines.

ghost use Rattle.std.specs.Prelude.{ℕ, List, ◌≡◌, ◌++◌, ◌∷◌, [], true, false, MatchBool, IfOk, IfErr, OnOk, unwrap_or};
ghost use Rattle.lg_vectors.specs.declared.column.Column.{Column as ColumnValue};
ghost use Rattle.lg_vectors.specs.declared.fault.VectorFault.TheVariants.{TooManyRows};
ghost use Rattle.lg_vectors.specs.Rows.{AreRowsOf, IsRowOf};
ghost use Rattle.lg_vectors.specs.Reading.{Row, Fits, Keeps, Stands, GoesOn, Stops};

use crate::cared::Cared;
use crate::column::Column;
use crate::fault::VectorFault;
use crate::heading::read_columns;
use crate::line::{next_word, uncommented};
use crate::row::read_row;
use crate::vector::{MOST_ROWS, Vector};
use sqlite_items::Items;
use std::alloc::{AllocError, Global};

// The columns, once they are named, and the rows, unless there are too many.
#[derive(Drop)]
pub struct Draft {
    pub columns: Option<Items<Column>>,
    pub rows: Items<Items<Cared>>,
    pub over: bool,
}

// Takes a line, and answers whether it belongs to a vector.
pub fn add_line(alloc: Global, draft: &mut Draft, line: &[u8]) -> Result<bool, AllocError>
    requires { Fits draft.old.columns draft.old.rows }
    ensures fits { OnOk result (Fits draft.new.columns draft.new.rows) }
    ensures line { IfOk result (λ good. (rows : List Row) → Stands draft.old.columns draft.old.rows draft.old.over rows
        → MatchBool good
        ((more : List Row) × Stands draft.new.columns draft.new.rows draft.new.over more
        × GoesOn draft.old.columns rows line.now draft.new.columns more)
        (Stops draft.old.columns line.now)) }
{
    if str::from_utf8(line).is_err() {
        return Ok(false);
    }
    let text = uncommented(line);
    if next_word(text).is_none() {
        return Ok(true);
    }
    match &draft.columns {
        None => match read_columns(alloc, text)? {
            Some(columns) => {
                draft.columns = Some(columns);
                Ok(true)
            }
            None => Ok(false),
        },
        Some(columns) => match read_row(alloc, columns.as_slice(), text)? {
            Some(row) => {
                draft.over = keep(&mut draft.rows, draft.over, row)?;
                Ok(true)
            }
            None => Ok(false),
        },
    }
}

// Keeps a row beside those that are kept already, unless they are too many: then `true` stands for all.
fn keep(rows: &mut Items<Items<Cared>>, over: bool, row: Items<Cared>) -> Result<bool, AllocError>
    ensures keeps { IfOk result (λ after. (all : List Row) → Keeps rows.old over all
        → Keeps rows.new after (all ++ row ∷ [])) }
    ensures fits { OnOk result ((columns : List ColumnValue) → AreRowsOf columns rows.old → IsRowOf columns row
        → AreRowsOf columns rows.new) }
{
    if over || rows.len() >= MOST_ROWS {
        return Ok(true);
    }
    rows.push(row)?;
    Ok(false)
}

// The vector that all lines make.
pub fn finish(alloc: Global, draft: Draft) -> Result<Vector, VectorFault>
    requires { Fits draft.columns draft.rows }
    ensures whole { IfOk result (λ v. (draft.over ≡ false) × (v.columns ≡ unwrap_or draft.columns []) × (v.rows ≡ draft.rows)) }
    ensures over { IfErr result (λ e. (draft.over ≡ true) × (e ≡ TooManyRows)) }
{
    let Draft {
        columns,
        rows,
        over,
    } = draft;
    if over {
        return Err(VectorFault::TooManyRows);
    }
    match columns {
        Some(columns) => Ok(Vector { columns, rows }),
        None => Ok(Vector {
            columns: Items::new(alloc),
            rows,
        }),
    }
}
