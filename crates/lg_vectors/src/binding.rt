//! Columns and the pins that they are named after.

ghost use Rattle.std.specs.Prelude.{◌≡◌, ◌⊎◌, false, [], IfOk, IfErr};
ghost use Rattle.std.specs.List.{IsDistinct};
ghost use Rattle.std.specs.Str.{bytes_eq};
ghost use Rattle.lg_vectors.specs.declared.fault.VectorFault.TheVariants.{Memory as NoMemory};
ghost use Rattle.lg_vectors.specs.Binding.{pin_names, column_names, has_name, AreBound, IsPinOf, IsColumnFault, IsBindFault, HaveColumns, IsMissing};
ghost use Rattle.lg_vectors.specs.Known.{KnowsPins, KnowsNames};

use crate::column::Column;
use crate::fault::VectorFault;
use crate::pin::PinShape;
use crate::vector::Vector;
use lg_text::Text;
use sqlite_items::Items;
use std::alloc::{AllocError, Global};
use std::collections::{BTreeMap, BTreeSet};

/// For each column the place of the pin that has its name and its width. The names of the pins differ.
///
/// The columns are looked at in turn, and the first that is not bound is named: `PinClash` for a name that came
/// before, else `NoPin` where no pin has it, else `PinWidth` where the pin has another width.
pub fn bind(alloc: Global, vector: &Vector, pins: &[PinShape]) -> Result<Items<u32>, VectorFault>
    requires { IsDistinct bytes_eq (pin_names pins.now) }
    ensures bound { IfOk result (λ places. AreBound [] pins.now vector.now.columns places) }
    ensures fault { IfErr result (λ e. (e ≡ NoMemory) ⊎ IsBindFault pins.now vector.now.columns e) }
{
    let mut seen = BTreeSet::new(alloc);
    bind_columns(alloc, vector.columns.as_slice(), pins, &mut seen)
}

/// For each column the place of its pin, where each pin has a column. The names of the pins differ; they are the input
/// pins of a circuit.
///
/// It refuses what `bind` refuses, and then by `MissingPin` the first pin without a column.
pub fn bind_rows(
    alloc: Global,
    vector: &Vector,
    pins: &[PinShape],
) -> Result<Items<u32>, VectorFault>
    requires { IsDistinct bytes_eq (pin_names pins.now) }
    ensures bound { IfOk result (λ places. AreBound [] pins.now vector.now.columns places) }
    ensures whole { IfOk result (λ _. HaveColumns vector.now.columns pins.now) }
    ensures fault { IfErr result (λ e. (e ≡ NoMemory) ⊎ (IsBindFault pins.now vector.now.columns e
        ⊎ IsMissing pins.now vector.now.columns e)) }
{
    let mut seen = BTreeSet::new(alloc);
    let places = bind_columns(alloc, vector.columns.as_slice(), pins, &mut seen)?;
    for pin in pins {
        if !seen.contains(pin.name.as_str()) {
            let name = Text::copy_of(alloc, pin.name.as_str())?;
            return Err(VectorFault::MissingPin { name });
        }
    }
    Ok(places)
}

// The places of the columns' pins. The names of the columns come into `seen`, which is empty before.
fn bind_columns(
    alloc: Global,
    columns: &[Column],
    pins: &[PinShape],
    seen: &mut BTreeSet<String>,
) -> Result<Items<u32>, VectorFault>
    requires { KnowsNames [] seen.old }
    ensures bound { IfOk result (λ places. AreBound [] pins.now columns.now places) }
    ensures seen { IfOk result (λ _. KnowsNames (column_names columns.now) seen.new) }
    ensures fault { IfErr result (λ e. (e ≡ NoMemory) ⊎ IsBindFault pins.now columns.now e) }
{
    let index = pin_index(alloc, pins)?;
    let mut places = Items::new(alloc);
    for (at, column) in columns.iter().enumerate() {
        let place = place_of(alloc, &columns[..at], column, seen, &index, pins)?;
        seen.insert(String::from_str(alloc, column.name.as_str())?)?;
        places.push(place)?;
    }
    Ok(places)
}

// The place of a column's pin. `seen` has the names of the columns before it.
fn place_of(
    alloc: Global,
    earlier: &[Column],
    column: &Column,
    seen: &BTreeSet<String>,
    index: &BTreeMap<String, u32>,
    pins: &[PinShape],
) -> Result<u32, VectorFault>
    requires seen { KnowsNames (column_names earlier.now) seen.now }
    requires index { KnowsPins pins.now index.now }
    ensures new { IfOk result (λ _. has_name (column_names earlier.now) column.now.name ≡ false) }
    ensures pin { IfOk result (λ place. IsPinOf pins.now column.now place) }
    ensures fault { IfErr result (λ e. (e ≡ NoMemory) ⊎ IsColumnFault (column_names earlier.now) pins.now column.now e) }
{
    let name = column.name.as_str();
    if seen.contains(name) {
        let name = Text::copy_of(alloc, name)?;
        return Err(VectorFault::PinClash { name });
    }
    let Some(place) = index.get(name).copied() else {
        let name = Text::copy_of(alloc, name)?;
        return Err(VectorFault::NoPin { name });
    };
    if pins[place as usize].width != column.width {
        let name = Text::copy_of(alloc, name)?;
        return Err(VectorFault::PinWidth { name });
    }
    Ok(place)
}

// The place of each pin under its name.
fn pin_index(alloc: Global, pins: &[PinShape]) -> Result<BTreeMap<String, u32>, VectorFault>
    ensures known { IfOk result (λ index. KnowsPins pins.now index) }
    ensures memory { IfErr result (λ e. e ≡ NoMemory) }
{
    let mut index = BTreeMap::new(alloc);
    for (at, pin) in pins.iter().enumerate() {
        let Ok(place) = u32::try_from(at) else {
            return Err(VectorFault::Memory);
        };
        index.insert(String::from_str(alloc, pin.name.as_str())?, place)?;
    }
    Ok(index)
}
