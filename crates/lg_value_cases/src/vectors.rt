//! Calls of `lg_vectors`.

use crate::text::word_of;
use lg_text::Text;
use lg_value::Word;
use lg_vectors::{PinShape, Vector, VectorFault, bind, bind_rows, passes, read_vector};
use sqlite_items::Items;
use std::alloc::Global;
use std::io;

/// What a call on the text of a vector answers; none where it is out of form.
pub fn told(alloc: Global, name: &str, numbers: &str, bytes: &[u8]) -> io::Result<Option<String>> {
    match name {
        "value" => match numbers.parse::<usize>() {
            Ok(place) => Ok(Some(value_at(alloc, bytes, place)?)),
            Err(_) => Ok(None),
        },
        "passes" => match word_of(numbers) {
            Some(word) => Ok(Some(passed(alloc, bytes, &word)?)),
            None => Ok(None),
        },
        "outside" => Ok(Some(outside(alloc, bytes)?)),
        "columns" => Ok(Some(columns(alloc, bytes)?)),
        "bind" => Ok(Some(places(alloc, bound(alloc, bytes, false))?)),
        "bind_rows" => Ok(Some(places(alloc, bound(alloc, bytes, true))?)),
        _ => Ok(None),
    }
}

// The name of a fault, and for a line that is outside the form its number.
fn fault(alloc: Global, fault: &VectorFault) -> io::Result<String> {
    let name = match fault {
        VectorFault::NotVector { line } => return Ok(format!(in alloc; "{line}")?),
        VectorFault::NoPin { .. } => "NoPin",
        VectorFault::PinWidth { .. } => "PinWidth",
        VectorFault::PinClash { .. } => "PinClash",
        VectorFault::TooManyRows => "TooManyRows",
        VectorFault::MissingPin { .. } => "MissingPin",
        VectorFault::Memory => "Memory",
    };
    Ok(String::from_str(alloc, name)?)
}

// The first line outside the form, 0 where there is none.
fn outside(alloc: Global, bytes: &[u8]) -> io::Result<String> {
    match read_vector(alloc, bytes) {
        Ok(_) => Ok(String::from_str(alloc, "0")?),
        Err(error) => fault(alloc, &error),
    }
}

// The bits and the cared places of a value of the first row, as numbers.
fn value_at(alloc: Global, bytes: &[u8], place: usize) -> io::Result<String> {
    let vector = match read_vector(alloc, bytes) {
        Ok(vector) => vector,
        Err(_) => return Ok(String::from_str(alloc, "none")?),
    };
    match vector.rows.get(0).and_then(|row| row.get(place)) {
        Some(value) if value.bits().defined() && value.care().defined() => {
            let (bits, care) = (value.bits().number(), value.care().number());
            Ok(format!(in alloc; "{bits} {care}")?)
        }
        _ => Ok(String::from_str(alloc, "none")?),
    }
}

// Whether a word passes for the first value of the first row.
fn passed(alloc: Global, bytes: &[u8], word: &Word) -> io::Result<String> {
    let vector = match read_vector(alloc, bytes) {
        Ok(vector) => vector,
        Err(error) => return fault(alloc, &error),
    };
    let said = match vector.rows.get(0).and_then(|row| row.get(0)) {
        Some(value) if word.width() == value.width() => {
            if passes(word, value) {
                "passes"
            } else {
                "fails"
            }
        }
        _ => "none",
    };
    Ok(String::from_str(alloc, said)?)
}

// The names and the widths of the columns, and how many rows there are.
fn columns(alloc: Global, bytes: &[u8]) -> io::Result<String> {
    let vector: Vector = match read_vector(alloc, bytes) {
        Ok(vector) => vector,
        Err(error) => return fault(alloc, &error),
    };
    let mut told = String::new(alloc);
    for column in vector.columns.as_slice() {
        let column = format!(in alloc; "{}[{}] ", column.name.as_str(), column.width)?;
        told.push_str(column.as_str())?;
    }
    let rows = format!(in alloc; "{} rows", vector.rows.len())?;
    told.push_str(rows.as_str())?;
    Ok(told)
}

// What binds a vector to the pins `A[4]` and `B`.
fn bound(alloc: Global, bytes: &[u8], every: bool) -> Result<Items<u32>, VectorFault> {
    let vector = read_vector(alloc, bytes)?;
    let a = PinShape {
        name: Text::copy_of(alloc, "A")?,
        width: 4,
        input: true,
    };
    let b = PinShape {
        name: Text::copy_of(alloc, "B")?,
        width: 1,
        input: true,
    };
    let pins = [a, b];
    if every {
        bind_rows(alloc, &vector, &pins)
    } else {
        bind(alloc, &vector, &pins)
    }
}

// The places of the pins of columns.
fn places(alloc: Global, bound: Result<Items<u32>, VectorFault>) -> io::Result<String> {
    let places = match bound {
        Ok(places) => places,
        Err(error) => return fault(alloc, &error),
    };
    let mut told = String::new(alloc);
    for place in places.as_slice() {
        let place = format!(in alloc; "{place} ")?;
        told.push_str(place.as_str())?;
    }
    told.push_str("end")?;
    Ok(told)
}
