//! Vectors: named columns, and rows of values for them.

ghost use Rattle.std.proofs.Props.{props};
ghost use Rattle.lg_vectors.specs.Rows.{AreRowsOf};

use crate::cared::Cared;
use crate::column::Column;
use sqlite_items::Items;

/// How many rows a vector has at most.
pub const MOST_ROWS: usize = 65_536;

/// Columns of 1 to 64 bits, and at most `MOST_ROWS` rows, each with one value a column in the column's width.
#[derive(Debug, Drop)]
pub struct Vector {
    pub columns: Items<Column>,
    pub rows: Items<Items<Cared>>,
    pub ghost rows_fit: { AreRowsOf columns rows } by { Prim.hlevel props },
}
