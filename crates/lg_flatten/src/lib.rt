//! The flat netlist of a sheet: what its components are, and the parts, pins and nets that they make.
#![tactic(auto)]

mod bits;
mod flat;
mod labels;
mod law;
mod parts;
mod pins;
mod places;
mod role;
mod uses;

pub use flat::netlist;
pub use law::sheets_have_netlists;
pub use role::Role;
pub use uses::roles;
