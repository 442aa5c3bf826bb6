//! Flat netlists of circuits: what is joined to what, chains, and which can be exported.
#![tactic(auto)]

mod acceptance;
mod cell;
mod drivers;
mod first_two;
mod law;
mod longest;
mod netlist;
mod order;
mod pins;

pub use acceptance::NotAccepted;
pub use cell::Loose;
pub use drivers::Driver;
pub use law::{accepted_netlists_have_static_values, netlists_are_judged, one_refusal};
pub use netlist::{Cell, Netlist, PartUse, PinUse};
pub use order::OrderFault;
