//! Reading a port table.

ghost use Rattle.std.specs.Prelude.{◌≡◌, IfOk, IfErr, MatchOption, codes};
ghost use Rattle.csv.specs.Reading.{error_kind};
ghost use Rattle.csv.specs.Records.{fields_of};
ghost use Rattle.lg_kinds.specs.declared.record.Record.{Record as RecordSelf};
ghost use Rattle.lg_kinds.specs.Cells.{cells};
ghost use Rattle.lg_kinds.specs.Kinds.{IsOnly};
ghost use Rattle.lg_kinds.specs.TableFile.{fault_at, HasForm, IsTableFile, RefusesTable};

use crate::cells::{
    Cells, cells_of, delay_of, has_attribute, has_effect, has_port, is_header, offset_of,
};
use crate::fault::PartFault;
use crate::kind::{Kind, find_kind, is_same};
use crate::port_table::PortTable;
use crate::record::Record;
use csv::{Error, ErrorKind, ReaderBuilder, StringRecord};
use lg_text::Text;
use sqlite_items::Items;
use std::alloc::{AllocError, Global};

/// The port table that a file's bytes are.
///
/// `BadTable` names the first record out of form, 0 being the header; a number past 2^32 - 1 is answered as that. Without
/// a record, the header is out of form. `Memory` comes where there is no memory.
pub fn read_port_table(alloc: Global, bytes: &[u8]) -> Result<PortTable, PartFault>
    ensures read { IfOk result (λ table. IsTableFile bytes.now table.records) }
    ensures refused { IfErr result (λ fault. RefusesTable bytes.now fault) }
{
    let reader = ReaderBuilder::new()
        .has_headers(false)
        .flexible(true)
        .from_reader(alloc, bytes);
    let mut records = Items::new(alloc);
    let mut number: u32 = 0;
    for row in reader.into_records() {
        let row = match row {
            Ok(row) => row,
            Err(error) => return Err(fault_of(&error, number)),
        };
        if number == 0 {
            if !is_header(&row) {
                return Err(PartFault::BadTable { row: 0 });
            }
        } else {
            match read_row(alloc, &row)? {
                Some(record) => records.push(record)?,
                None => return Err(PartFault::BadTable { row: number }),
            }
        }
        number = number.saturating_add(1);
    }
    if number == 0 {
        return Err(PartFault::BadTable { row: 0 });
    }
    Ok(PortTable::of_records(alloc, records)?)
}

// What a record that cannot be read is answered with: it is no text, or there was no memory.
fn fault_of(error: &Error, number: u32) -> PartFault
    ensures { result ≡ fault_at (error_kind error.now) number }
{
    match error.kind() {
        ErrorKind::Utf8 { .. } => PartFault::BadTable { row: number },
        _ => PartFault::Memory,
    }
}

// What a record behind the header replaces.
fn read_row(alloc: Global, row: &StringRecord) -> Result<Option<Record>, AllocError>
    ensures { IfOk result (λ found. MatchOption found
        ((said : RecordSelf) → HasForm (fields_of row.now) said → ⊥)
        (λ said. HasForm (fields_of row.now) said)) }
{
    match cells_of(row) {
        Some(cells) => read_cells(alloc, &cells),
        None => Ok(None),
    }
}

fn read_cells(alloc: Global, row: &Cells) -> Result<Option<Record>, AllocError>
    ensures { IfOk result (λ found. MatchOption found
        ((said : RecordSelf) → HasForm (cells row.now) said → ⊥)
        (λ said. HasForm (cells row.now) said)) }
{
    if row.word == "circuit" {
        return read_circuit(alloc, row);
    }
    let Some(kind) = find_kind(row.name) else {
        return Ok(None);
    };
    if row.word == "port" {
        read_port(alloc, kind, row)
    } else if row.word == "delay" {
        Ok(read_delay(kind, row))
    } else if row.word == "default" {
        read_default(alloc, kind, row)
    } else {
        Ok(None)
    }
}

fn read_port(alloc: Global, kind: Kind, row: &Cells) -> Result<Option<Record>, AllocError>
    requires word { row.now.word.now ≡ codes "port" }
    requires named { IsOnly row.now.name.now kind }
    ensures { IfOk result (λ found. MatchOption found
        ((said : RecordSelf) → HasForm (cells row.now) said → ⊥)
        (λ said. HasForm (cells row.now) said)) }
{
    if is_same(kind, Kind::Splitter) || !has_port(alloc, kind, row.item)? {
        return Ok(None);
    }
    let Some(dx) = offset_of(row.a) else {
        return Ok(None);
    };
    let Some(dy) = offset_of(row.b) else {
        return Ok(None);
    };
    let port = Text::copy_of(alloc, row.item)?;
    Ok(Some(Record::Port { kind, port, dx, dy }))
}

fn read_delay(kind: Kind, row: &Cells) -> Option<Record>
    requires word { row.now.word.now ≡ codes "delay" }
    requires named { IsOnly row.now.name.now kind }
    ensures { MatchOption result
        ((said : RecordSelf) → HasForm (cells row.now) said → ⊥)
        (λ said. HasForm (cells row.now) said) }
{
    if !row.item.is_empty() || !row.b.is_empty() || !has_effect(kind) {
        return None;
    }
    match delay_of(row.a) {
        Some(instants) => Some(Record::Delay { kind, instants }),
        None => None,
    }
}

fn read_default(alloc: Global, kind: Kind, row: &Cells) -> Result<Option<Record>, AllocError>
    requires word { row.now.word.now ≡ codes "default" }
    requires named { IsOnly row.now.name.now kind }
    ensures { IfOk result (λ found. MatchOption found
        ((said : RecordSelf) → HasForm (cells row.now) said → ⊥)
        (λ said. HasForm (cells row.now) said)) }
{
    if !row.b.is_empty() || !has_attribute(alloc, kind, row.item)? {
        return Ok(None);
    }
    let attribute = Text::copy_of(alloc, row.item)?;
    let value = Text::copy_of(alloc, row.a)?;
    Ok(Some(Record::Default {
        kind,
        attribute,
        value,
    }))
}

fn read_circuit(alloc: Global, row: &Cells) -> Result<Option<Record>, AllocError>
    requires word { row.now.word.now ≡ codes "circuit" }
    ensures { IfOk result (λ found. MatchOption found
        ((said : RecordSelf) → HasForm (cells row.now) said → ⊥)
        (λ said. HasForm (cells row.now) said)) }
{
    let Some(dx) = offset_of(row.a) else {
        return Ok(None);
    };
    let Some(dy) = offset_of(row.b) else {
        return Ok(None);
    };
    let sheet = Text::copy_of(alloc, row.name)?;
    let pin = Text::copy_of(alloc, row.item)?;
    Ok(Some(Record::Circuit { sheet, pin, dx, dy }))
}
