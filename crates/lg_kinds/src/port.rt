//! Ports: where a component meets the wires.

/// Which way words go at a port.
#[derive(Clone, Copy, Debug, PartialEq, Eq)]
pub enum Side {
    /// The component reads there.
    In,
    /// The component drives there.
    Out,
    /// Either, or neither.
    Both,
}

/// What a part reads at an input to which nothing is attached.
#[derive(Clone, Copy, Debug, PartialEq, Eq)]
pub enum Loose {
    /// The part leaves the input out.
    Ignored,
    Zero,
    One,
    Unknown,
}

/// A port of a component.
#[derive(Clone, Copy, Debug, PartialEq, Eq)]
pub struct Port {
    /// How far it stands to the right of its component, in the drawing's units.
    pub dx: i32,
    /// How far it stands below its component, in the drawing's units.
    pub dy: i32,
    /// How many bits it has; 0 for as many as there are.
    pub width: u32,
    pub side: Side,
    pub loose: Loose,
}
