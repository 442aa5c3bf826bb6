//! The numbers that rows give to inputs.

ghost use Rattle.std.specs.Prelude.{◌≡◌, ◌↔◌, ◌<◌, ◌≤◌, All, IsTrue, length, None, MatchOption, IfOk};
ghost use Rattle.std.specs.List.{AllZip};
ghost use Rattle.lg_vrows.specs.Rows.{IsWhole, IsDefinedRow, IsFirstUndefined, AreInputs};
ghost use Rattle.lg_vrows.specs.Steps.{AreIndexes};

use lg_value::{Bit, Word};
use lg_vectors::Cared;
use sqlite_items::Items;
use std::alloc::{AllocError, Global};

/// The first row, from 1, with a bit that is not cared for.
pub fn first_undefined(rows: &[Items<Cared>]) -> Option<u32>
    requires { length rows.now ≤ 65536 }
    ensures { MatchOption result (All IsDefinedRow rows.now) (IsFirstUndefined rows.now) }
{
    for (at, row) in rows.iter().enumerate() {
        if !is_defined(row.as_slice()) {
            return Some(at as u32 + 1);
        }
    }
    None
}

fn is_defined(row: &[Cared]) -> bool
    ensures { IsTrue result ↔ IsDefinedRow row.now }
{
    row.iter().all(|value| is_whole(value))
}

fn is_whole(value: &Cared) -> bool
    ensures { IsTrue result ↔ IsWhole value.now }
{
    let care = value.care();
    care == Word::fill(care.width(), Bit::One)
}

/// The numbers of so many inputs in each row, where the columns are bound to the inputs at these indexes.
pub fn inputs_of(
    alloc: Global,
    inputs: usize,
    indexes: &[u32],
    rows: &[Items<Cared>],
) -> Result<Vec<Items<u64>>, AllocError>
    requires { AreIndexes inputs indexes.now }
    ensures { IfOk result (λ numbers. AllZip (AreInputs inputs indexes.now) rows.now numbers.items) }
{
    let mut numbers = Vec::with_capacity(alloc, rows.len())?;
    for row in rows {
        numbers.push(row_of(alloc, inputs, indexes, row.as_slice())?)?;
    }
    Ok(numbers)
}

fn row_of(
    alloc: Global,
    inputs: usize,
    indexes: &[u32],
    row: &[Cared],
) -> Result<Items<u64>, AllocError>
    requires { AreIndexes inputs indexes.now }
    ensures { IfOk result (λ numbers. AreInputs inputs indexes.now row.now numbers) }
{
    let mut numbers = vec![in alloc; 0; inputs]?;
    for (index, value) in indexes.iter().zip(row) {
        numbers[*index as usize] = value.bits().number();
    }
    Ok(Items::from_vec(numbers))
}
