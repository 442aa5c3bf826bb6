//! Where the last records for things stand.

ghost use Rattle.std.specs.Prelude.{[], OnOk};
ghost use Rattle.lg_kinds.specs.Latest.{KnowsLatest, Learns};

use crate::index::Index;
use crate::kind::kind_name;
use crate::record::Record;
use std::alloc::{AllocError, Global};
use std::collections::BTreeMap;

// Where the last record stands for each port of a kind, for each kind's delay, for each attribute of a kind, and for each
// pin of a sheet.
#[derive(Debug, Drop)]
pub struct Latest {
    pub ports: Index,
    pub delays: BTreeMap<String, usize>,
    pub defaults: Index,
    pub pins: Index,
}

impl Latest {
    // Those of no records.
    pub fn new(alloc: Global) -> Latest
        ensures { KnowsLatest [] result }
    {
        Latest {
            ports: Index::new(alloc),
            delays: BTreeMap::new(alloc),
            defaults: Index::new(alloc),
            pins: Index::new(alloc),
        }
    }

    // Adds a record that stands at a place, behind the others.
    pub fn add(&mut self, alloc: Global, one: &Record, place: usize) -> Result<(), AllocError>
        ensures { OnOk result (Learns place one.now self.old self.new) }
    {
        match one {
            Record::Port { kind, port, .. } => self
                .ports
                .put(alloc, kind_name(*kind), port.as_str(), place),
            Record::Delay { kind, .. } => {
                let name = String::from_str(alloc, kind_name(*kind))?;
                self.delays.insert(name, place)?;
                Ok(())
            }
            Record::Default {
                kind,
                attribute,
                ..
            } => {
                self.defaults
                    .put(alloc, kind_name(*kind), attribute.as_str(), place)
            }
            Record::Circuit { sheet, pin, .. } => {
                self.pins.put(alloc, sheet.as_str(), pin.as_str(), place)
            }
        }
    }
}
