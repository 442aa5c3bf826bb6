//! Flat netlists: parts, pins and the nets that join them.

ghost use Rattle.std.proofs.Props.{props};
ghost use Rattle.lg_netlist.specs.Valid.{IsValid};

use lg_text::Text;
use sqlite_items::Items;

/// What a part does.
#[derive(Clone, Copy, Debug, PartialEq, Eq)]
pub enum Cell {
    Not,
    And,
    Or,
}

/// One part, with the net bits of each of its ports, bit 0 first. An unattached port has none.
#[derive(Debug, Drop)]
pub struct PartUse {
    /// Its path and kind, as `main(130,60) NOT Gate`.
    pub name: Text,
    pub cell: Cell,
    pub inputs: Items<Items<u32>>,
    pub outputs: Items<Items<u32>>,
}

/// One pin of the chosen circuit, with its net bits, bit 0 first.
#[derive(Debug, Drop)]
pub struct PinUse {
    /// The name by which columns and ports are called.
    pub name: Text,
    /// Its path and kind, as `main(100,60) Pin`.
    pub place: Text,
    pub input: bool,
    pub bits: Items<u32>,
}

/// The parts, pins and clocks of a circuit. Nets are numbered from 0, and all that is named here is among them; ports fit
/// their cells, pins have names that a module can spell and that differ, and the clock pin is an input pin of one bit.
#[derive(Debug, Drop)]
pub struct Netlist {
    /// The circuit's name, as it stands.
    pub circuit: Text,
    pub parts: Items<PartUse>,
    pub pins: Items<PinUse>,
    /// The net and the name of each clock.
    pub clocks: Items<(u32, Text)>,
    /// How many nets there are.
    pub nets: u32,
    /// The place in `pins` of the input pin that serves as the clock.
    pub clock_pin: Option<u32>,
    pub ghost valid: { IsValid parts pins clocks nets clock_pin } by { Prim.hlevel props },
}
