//! The table of kinds: one entry a kind, in the module of its family.

ghost use Rattle.std.specs.Prelude.{◌≡◌};
ghost use Rattle.lg_kinds.specs.Rows.{seen_entry};
ghost use Rattle.lg_kinds.specs.Table.{entry};

use crate::kind::Kind;
use crate::rows::Entry;
use crate::{arithmetic, gates, io, memory, plexers, wiring};

/// The kind's entry.
pub fn entry(kind: Kind) -> &'static Entry
    ensures { seen_entry result.now ≡ entry kind }
{
    match kind {
        Kind::Pin => &wiring::PIN,
        Kind::Tunnel => &wiring::TUNNEL,
        Kind::Splitter => &wiring::SPLITTER,
        Kind::Clock => &wiring::CLOCK,
        Kind::Constant => &wiring::CONSTANT,
        Kind::Power => &wiring::POWER,
        Kind::Ground => &wiring::GROUND,
        Kind::PullResistor => &wiring::PULL_RESISTOR,
        Kind::BitExtender => &wiring::BIT_EXTENDER,
        Kind::NotGate => &gates::NOT_GATE,
        Kind::Buffer => &gates::BUFFER,
        Kind::AndGate => &gates::AND_GATE,
        Kind::OrGate => &gates::OR_GATE,
        Kind::NandGate => &gates::NAND_GATE,
        Kind::NorGate => &gates::NOR_GATE,
        Kind::XorGate => &gates::XOR_GATE,
        Kind::XnorGate => &gates::XNOR_GATE,
        Kind::OddParity => &gates::ODD_PARITY,
        Kind::EvenParity => &gates::EVEN_PARITY,
        Kind::ControlledBuffer => &gates::CONTROLLED_BUFFER,
        Kind::ControlledInverter => &gates::CONTROLLED_INVERTER,
        Kind::Multiplexer => &plexers::MULTIPLEXER,
        Kind::Demultiplexer => &plexers::DEMULTIPLEXER,
        Kind::Decoder => &plexers::DECODER,
        Kind::PriorityEncoder => &plexers::PRIORITY_ENCODER,
        Kind::BitSelector => &plexers::BIT_SELECTOR,
        Kind::Adder => &arithmetic::ADDER,
        Kind::Subtractor => &arithmetic::SUBTRACTOR,
        Kind::Multiplier => &arithmetic::MULTIPLIER,
        Kind::Divider => &arithmetic::DIVIDER,
        Kind::Negator => &arithmetic::NEGATOR,
        Kind::Comparator => &arithmetic::COMPARATOR,
        Kind::Shifter => &arithmetic::SHIFTER,
        Kind::BitAdder => &arithmetic::BIT_ADDER,
        Kind::DFlipFlop => &memory::DFLIP_FLOP,
        Kind::TFlipFlop => &memory::TFLIP_FLOP,
        Kind::JkFlipFlop => &memory::JK_FLIP_FLOP,
        Kind::SrFlipFlop => &memory::SR_FLIP_FLOP,
        Kind::Register => &memory::REGISTER,
        Kind::Counter => &memory::COUNTER,
        Kind::ShiftRegister => &memory::SHIFT_REGISTER,
        Kind::Rom => &memory::ROM,
        Kind::Ram => &memory::RAM,
        Kind::Probe => &io::PROBE,
        Kind::Led => &io::LED,
        Kind::Text => &io::TEXT,
        Kind::HexDisplay => &io::HEX_DISPLAY,
        Kind::SegmentDisplay => &io::SEGMENT_DISPLAY,
    }
}
