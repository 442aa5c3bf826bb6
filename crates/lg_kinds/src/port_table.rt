//! What stands in place of the table of kinds: places of ports, delays, and values of attributes that are left out.

ghost use Rattle.std.specs.Prelude.{ℕ, List, true, ◌≡◌, ◌≤◌, [], option_map, IfOk, IfSome};
ghost use Rattle.std.specs.List.{list_all};
ghost use Rattle.std.specs.Int.NonZero.{non_zero_u8_get};
ghost use denote.Bor.{Bor};
ghost use Rattle.lg_kinds.specs.PortTable.{default_of, place_of, delay_in_table, sheet_row, sheet_rows, is_near};
ghost use Rattle.std.proofs.Props.{props};
ghost use Rattle.std.specs.Option.{option_copied};
ghost use Rattle.lg_kinds.specs.Latest.{KnowsLatest, record_at};

use crate::kind::{Kind, kind_name};
use crate::latest::Latest;
use crate::record::Record;
use sqlite_items::Items;
use std::alloc::{AllocError, Global};
use std::num::NonZeroU8;

/// Records that replace what the table of kinds says. Of records for one thing the last counts.
///
/// Source: the file of places, delays and defaults of this project.
#[derive(Debug, Drop)]
pub struct PortTable {
    records: Items<Record>,
    latest: Latest,
    ghost known: { KnowsLatest records latest } by { Prim.hlevel props },
    ghost near: { list_all is_near records ≡ true },
}

impl PortTable {
    /// The table without records: what is printed in the table of kinds holds.
    pub fn printed(alloc: Global) -> PortTable
        ensures { result.records ≡ [] }
    {
        PortTable {
            records: Items::new(alloc),
            latest: Latest::new(alloc),
        }
    }

    // The table of these records.
    pub(crate) fn of_records(alloc: Global, records: Items<Record>) -> Result<PortTable, AllocError>
        requires { list_all is_near records ≡ true }
        ensures { IfOk result (λ table. table.records ≡ records) }
    {
        let mut latest = Latest::new(alloc);
        for (place, record) in records.as_slice().iter().enumerate() {
            latest.add(alloc, record, place)?;
        }
        Ok(PortTable { records, latest })
    }

    /// The value of the last record that gives this attribute of the kind a default, where there is one.
    pub fn default_of(&self, kind: Kind, attr: &str) -> Option<&str>
        ensures { option_map (λ (t : Bor (List ℕ)). t.now) result ≡ default_of self.now.records kind attr.now }
    {
        let place = self.latest.defaults.find(kind_name(kind), attr);
        match self.record_at(place) {
            Some(record) => record.default_of(kind, attr),
            None => None,
        }
    }

    /// The delay that the last record for the kind's delay gives it, where there is one.
    pub fn delay_of(&self, kind: Kind) -> Option<NonZeroU8>
        ensures delay { result ≡ delay_in_table self.now.records kind }
        ensures range { IfSome result (λ instants. (1 ≤ non_zero_u8_get instants) × (non_zero_u8_get instants ≤ 255)) }
    {
        let place = self.latest.delays.get(kind_name(kind)).copied();
        match self.record_at(place) {
            Some(record) => record.delay_of(kind),
            None => None,
        }
    }

    /// How many different pins of the sheet have a record, which is 2^32 - 1 where they are more.
    pub fn sheet_rows(&self, sheet: &str) -> u32
        ensures { result ≡ sheet_rows self.now.records sheet.now }
    {
        match u32::try_from(self.latest.pins.count(sheet)) {
            Ok(count) => count,
            Err(_) => u32::MAX,
        }
    }

    /// The offset that the last record for this pin of the sheet gives it at the sheet's uses, where there is one.
    pub fn sheet_row(&self, sheet: &str, pin: &str) -> Option<(i32, i32)>
        ensures { result ≡ sheet_row self.now.records sheet.now pin.now }
    {
        match self.last_sheet_row(sheet, pin) {
            Some((dx, dy)) => Some((i32::from(dx), i32::from(dy))),
            None => None,
        }
    }

    fn last_sheet_row(&self, sheet: &str, pin: &str) -> Option<(i16, i16)>
        ensures { result ≡ sheet_row self.now.records sheet.now pin.now }
    {
        let place = self.latest.pins.find(sheet, pin);
        match self.record_at(place) {
            Some(record) => record.sheet_row(sheet, pin),
            None => None,
        }
    }

    /// The place of the last record that moves the port of the kind, where there is one.
    pub fn place_of(&self, kind: Kind, port: &str) -> Option<(i16, i16)>
        ensures { result ≡ place_of self.now.records kind port.now }
    {
        let place = self.latest.ports.find(kind_name(kind), port);
        match self.record_at(place) {
            Some(record) => record.place_of(kind, port),
            None => None,
        }
    }

    // The record at a place, where there is one.
    fn record_at(&self, place: Option<usize>) -> Option<&Record>
        ensures { option_copied result ≡ record_at self.now.records place }
    {
        self.records.get(place?)
    }
}
