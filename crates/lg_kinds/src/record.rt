//! The records of a port table.

ghost use Rattle.std.specs.Prelude.{ℕ, List, ◌≡◌, ◌≤◌, option_map, IfSome};
ghost use Rattle.std.specs.Int.NonZero.{non_zero_u8_get};
ghost use denote.Bor.{Bor};
ghost use Rattle.lg_kinds.specs.PortTable.{default_in, place_in, circuit_in, delay_in};

use crate::kind::{Kind, is_same};
use lg_text::Text;
use std::num::NonZeroU8;

// One record of a port table.
#[derive(Debug, Drop)]
pub enum Record {
    // A port of a kind stands elsewhere.
    Port {
        kind: Kind,
        port: Text,
        dx: i16,
        dy: i16,
    },
    // A kind takes another number of instants.
    Delay {
        kind: Kind,
        instants: NonZeroU8,
    },
    // An attribute of a kind has another value where it is left out.
    Default {
        kind: Kind,
        attribute: Text,
        value: Text,
    },
    // A pin of a sheet stands elsewhere at the sheet's uses.
    Circuit {
        sheet: Text,
        pin: Text,
        dx: i16,
        dy: i16,
    },
}

impl Record {
    // The value that the record gives an attribute of a kind where it is left out.
    pub fn default_of(&self, kind: Kind, name: &str) -> Option<&str>
        ensures { option_map (λ (t : Bor (List ℕ)). t.now) result ≡ default_in kind name.now self.now }
    {
        match self {
            Record::Default {
                kind: of,
                attribute,
                value,
            } if is_same(*of, kind) && attribute.as_str() == name => Some(value.as_str()),
            _ => None,
        }
    }

    // The place that the record gives a pin at the uses of a sheet.
    pub fn sheet_row(&self, sheet: &str, pin: &str) -> Option<(i16, i16)>
        ensures { result ≡ circuit_in sheet.now pin.now self.now }
    {
        match self {
            Record::Circuit {
                sheet: of,
                pin: name,
                dx,
                dy,
            } if of.as_str() == sheet && name.as_str() == pin => Some((*dx, *dy)),
            _ => None,
        }
    }

    // The place that the record gives a port of a kind.
    pub fn place_of(&self, kind: Kind, name: &str) -> Option<(i16, i16)>
        ensures { result ≡ place_in kind name.now self.now }
    {
        match self {
            Record::Port {
                kind: of,
                port,
                dx,
                dy,
            } if is_same(*of, kind) && port.as_str() == name => Some((*dx, *dy)),
            _ => None,
        }
    }

    // The delay that the record gives a kind.
    pub fn delay_of(&self, kind: Kind) -> Option<NonZeroU8>
        ensures delay { result ≡ delay_in kind self.now }
        ensures range { IfSome result (λ instants. (1 ≤ non_zero_u8_get instants) × (non_zero_u8_get instants ≤ 255)) }
    {
        match self {
            Record::Delay { kind: of, instants } if is_same(*of, kind) => {
                let _read = instants.get();
                Some(*instants)
            }
            _ => None,
        }
    }
}
