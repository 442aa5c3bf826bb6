//! What the components of a sheet are.

use lg_netlist::Cell;

/// What a component is, so far: a pin of one bit, or a gate of one bit with its size in the drawing's units.
#[derive(Clone, Copy, Debug, PartialEq, Eq)]
pub enum Role {
    Pin { input: bool },
    Gate { cell: Cell, size: u32 },
}
