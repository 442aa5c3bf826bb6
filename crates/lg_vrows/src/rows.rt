//! Rows of a module, from their text to the text of its outputs.

ghost use Rattle.std.specs.Prelude.{IfOk, IfErr};
ghost use Rattle.lg_vrows.specs.Due.{IsRowsText, IsRowsFault};

use crate::fault::RowsFault;
use crate::inputs::{first_undefined, inputs_of};
use crate::pins::input_pins;
use crate::text::print;
use lg_vectors::{bind_rows, read_vector};
use lg_vmeaning::Valid;
use std::alloc::Global;

/// The text of a module's outputs on the rows that the bytes say.
pub fn rows_text(alloc: Global, module: &Valid, bytes: &[u8]) -> Result<Vec<u8>, RowsFault>
    ensures found { IfOk result (λ text. IsRowsText «module».now bytes.now text.items) }
    ensures fault { IfErr result (IsRowsFault «module».now bytes.now) }
{
    let vector = read_vector(alloc, bytes)?;
    let pins = input_pins(alloc, module.inputs())?;
    let indexes = bind_rows(alloc, &vector, pins.as_slice())?;
    if let Some(row) = first_undefined(vector.rows.as_slice()) {
        return Err(RowsFault::Undefined { row });
    }
    let inputs = inputs_of(
        alloc,
        pins.len(),
        indexes.as_slice(),
        vector.rows.as_slice(),
    )?;
    let outs = module.run_rows(alloc, inputs.as_slice())?;
    Ok(print(alloc, module.outputs(), outs.as_slice())?)
}
