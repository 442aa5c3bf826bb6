//! Components and what they do. Each part stands in a crate of its own; this one hands them on.
#![tactic(auto)]

pub use lg_ports::{
    Attrs, Given, Kind, Loose, PartFault, Port, PortTable, Side, contents_of, delay, is_contents,
    kind_name, kind_of, literal_of, ports, read_port_table, turned,
};
pub use lg_shapes::{
    Arithmetic, ControlSide, Disabled, Extension, Gate, Mode, Plexer, SelectCorner, Shape, Wiring,
};
