//! Gates, and buffers with a control.

use crate::attributes::{FACING, FLAG, WIDTH};
use crate::port::{Loose, Side};
use crate::rows::{AttributeRow, Count, Delay, Entry, Place, PortRow, Range, Size};

const NOT_SIZE: AttributeRow = AttributeRow(
    "size",
    Count::Once,
    Range::OneOf(&["20", "30"]),
    Some("30"),
);

const SIZE: AttributeRow = AttributeRow(
    "size",
    Count::Once,
    Range::OneOf(&["30", "50", "70"]),
    Some("50"),
);

const INPUTS: AttributeRow = AttributeRow("inputs", Count::Once, Range::Number(2, 64), Some("2"));

const NEGATE: AttributeRow = AttributeRow("negate", Count::Inputs, FLAG, Some("false"));

const OUT: AttributeRow = AttributeRow(
    "out",
    Count::Once,
    Range::OneOf(&["01", "0Z", "Z1"]),
    Some("01"),
);

const XOR: AttributeRow = AttributeRow("xor", Count::Once, Range::OneOf(&["1", "odd"]), Some("1"));

const CONTROL: AttributeRow = AttributeRow(
    "control",
    Count::Once,
    Range::OneOf(&["right", "left"]),
    Some("right"),
);

pub static NOT_GATE: Entry = Entry {
    name: "NOT Gate",
    attributes: &[FACING, WIDTH, NOT_SIZE, OUT],
    ports: &[
        PortRow(
            Side::In,
            "in",
            Count::Once,
            Size::Width,
            Place::Behind,
            Loose::Unknown,
        ),
        PortRow(
            Side::Out,
            "out",
            Count::Once,
            Size::Width,
            Place::At(0, 0),
            Loose::Unknown,
        ),
    ],
    delay: Delay::Instants(1),
};

pub static BUFFER: Entry = Entry {
    name: "Buffer",
    attributes: &[FACING, WIDTH, OUT],
    ports: &[
        PortRow(
            Side::In,
            "in",
            Count::Once,
            Size::Width,
            Place::At(-20, 0),
            Loose::Unknown,
        ),
        PortRow(
            Side::Out,
            "out",
            Count::Once,
            Size::Width,
            Place::At(0, 0),
            Loose::Unknown,
        ),
    ],
    delay: Delay::Instants(1),
};

pub static AND_GATE: Entry = Entry {
    name: "AND Gate",
    attributes: &[FACING, WIDTH, SIZE, INPUTS, NEGATE, OUT],
    ports: &[
        PortRow(
            Side::In,
            "in",
            Count::Inputs,
            Size::Width,
            Place::GateInput(0),
            Loose::Ignored,
        ),
        PortRow(
            Side::Out,
            "out",
            Count::Once,
            Size::Width,
            Place::At(0, 0),
            Loose::Unknown,
        ),
    ],
    delay: Delay::Instants(1),
};

pub static OR_GATE: Entry = Entry {
    name: "OR Gate",
    attributes: &[FACING, WIDTH, SIZE, INPUTS, NEGATE, OUT],
    ports: &[
        PortRow(
            Side::In,
            "in",
            Count::Inputs,
            Size::Width,
            Place::GateInput(0),
            Loose::Ignored,
        ),
        PortRow(
            Side::Out,
            "out",
            Count::Once,
            Size::Width,
            Place::At(0, 0),
            Loose::Unknown,
        ),
    ],
    delay: Delay::Instants(1),
};

pub static NAND_GATE: Entry = Entry {
    name: "NAND Gate",
    attributes: &[FACING, WIDTH, SIZE, INPUTS, NEGATE, OUT],
    ports: &[
        PortRow(
            Side::In,
            "in",
            Count::Inputs,
            Size::Width,
            Place::GateInput(10),
            Loose::Ignored,
        ),
        PortRow(
            Side::Out,
            "out",
            Count::Once,
            Size::Width,
            Place::At(0, 0),
            Loose::Unknown,
        ),
    ],
    delay: Delay::Instants(1),
};

pub static NOR_GATE: Entry = Entry {
    name: "NOR Gate",
    attributes: &[FACING, WIDTH, SIZE, INPUTS, NEGATE, OUT],
    ports: &[
        PortRow(
            Side::In,
            "in",
            Count::Inputs,
            Size::Width,
            Place::GateInput(10),
            Loose::Ignored,
        ),
        PortRow(
            Side::Out,
            "out",
            Count::Once,
            Size::Width,
            Place::At(0, 0),
            Loose::Unknown,
        ),
    ],
    delay: Delay::Instants(1),
};

pub static XOR_GATE: Entry = Entry {
    name: "XOR Gate",
    attributes: &[FACING, WIDTH, SIZE, INPUTS, NEGATE, OUT, XOR],
    ports: &[
        PortRow(
            Side::In,
            "in",
            Count::Inputs,
            Size::Width,
            Place::GateInput(10),
            Loose::Ignored,
        ),
        PortRow(
            Side::Out,
            "out",
            Count::Once,
            Size::Width,
            Place::At(0, 0),
            Loose::Unknown,
        ),
    ],
    delay: Delay::Instants(1),
};

pub static XNOR_GATE: Entry = Entry {
    name: "XNOR Gate",
    attributes: &[FACING, WIDTH, SIZE, INPUTS, NEGATE, OUT, XOR],
    ports: &[
        PortRow(
            Side::In,
            "in",
            Count::Inputs,
            Size::Width,
            Place::GateInput(20),
            Loose::Ignored,
        ),
        PortRow(
            Side::Out,
            "out",
            Count::Once,
            Size::Width,
            Place::At(0, 0),
            Loose::Unknown,
        ),
    ],
    delay: Delay::Instants(1),
};

pub static ODD_PARITY: Entry = Entry {
    name: "Odd Parity",
    attributes: &[FACING, WIDTH, SIZE, INPUTS, NEGATE, OUT],
    ports: &[
        PortRow(
            Side::In,
            "in",
            Count::Inputs,
            Size::Width,
            Place::GateInput(0),
            Loose::Ignored,
        ),
        PortRow(
            Side::Out,
            "out",
            Count::Once,
            Size::Width,
            Place::At(0, 0),
            Loose::Unknown,
        ),
    ],
    delay: Delay::Instants(1),
};

pub static EVEN_PARITY: Entry = Entry {
    name: "Even Parity",
    attributes: &[FACING, WIDTH, SIZE, INPUTS, NEGATE, OUT],
    ports: &[
        PortRow(
            Side::In,
            "in",
            Count::Inputs,
            Size::Width,
            Place::GateInput(10),
            Loose::Ignored,
        ),
        PortRow(
            Side::Out,
            "out",
            Count::Once,
            Size::Width,
            Place::At(0, 0),
            Loose::Unknown,
        ),
    ],
    delay: Delay::Instants(1),
};

pub static CONTROLLED_BUFFER: Entry = Entry {
    name: "Controlled Buffer",
    attributes: &[FACING, WIDTH, CONTROL],
    ports: &[
        PortRow(
            Side::In,
            "in",
            Count::Once,
            Size::Width,
            Place::At(-20, 0),
            Loose::Unknown,
        ),
        PortRow(
            Side::In,
            "ctl",
            Count::Once,
            Size::One,
            Place::Control,
            Loose::Unknown,
        ),
        PortRow(
            Side::Out,
            "out",
            Count::Once,
            Size::Width,
            Place::At(0, 0),
            Loose::Unknown,
        ),
    ],
    delay: Delay::Instants(1),
};

pub static CONTROLLED_INVERTER: Entry = Entry {
    name: "Controlled Inverter",
    attributes: &[FACING, WIDTH, CONTROL],
    ports: &[
        PortRow(
            Side::In,
            "in",
            Count::Once,
            Size::Width,
            Place::At(-30, 0),
            Loose::Unknown,
        ),
        PortRow(
            Side::In,
            "ctl",
            Count::Once,
            Size::One,
            Place::Control,
            Loose::Unknown,
        ),
        PortRow(
            Side::Out,
            "out",
            Count::Once,
            Size::Width,
            Place::At(0, 0),
            Loose::Unknown,
        ),
    ],
    delay: Delay::Instants(1),
};
