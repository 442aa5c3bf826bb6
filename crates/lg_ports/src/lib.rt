//! The ports and the delay that a component of a kind has with its attributes.
#![tactic(auto)]

mod contents;
mod delays;
mod fan;
mod gate;
mod given;
mod judge;
mod listing;
mod place;
mod range;
mod size;
mod splitter;
mod splitter_place;

pub use contents::{contents_of, is_contents};
pub use delays::delay;
pub use given::Given;
pub use lg_attrs::Attrs;
pub use lg_kinds::{
    Kind, Loose, PartFault, Port, PortTable, Side, kind_name, kind_of, read_port_table,
};
pub use listing::ports;
pub use place::turned;
pub use range::literal_of;
