//! Wiring: pins, tunnels, splitters, constants and the clock.

use crate::attributes::{FACING, FLAG, WIDTH};
use crate::port::{Loose, Side};
use crate::rows::{AttributeRow, Count, Delay, Entry, Place, PortRow, Range, Size};

const LABEL: AttributeRow = AttributeRow("label", Count::Once, Range::Any, Some(""));

const OUTPUT: AttributeRow = AttributeRow("output", Count::Once, FLAG, Some("false"));

const PIN_TYPE: AttributeRow = AttributeRow("type", Count::Once, Range::Any, Some(""));

const INCOMING: AttributeRow = AttributeRow(
    "incoming",
    Count::Once,
    Range::Number(1, 64),
    Some("2"),
);

const FANOUT: AttributeRow = AttributeRow("fanout", Count::Once, Range::Number(1, 64), Some("2"));

const APPEAR: AttributeRow = AttributeRow(
    "appear",
    Count::Once,
    Range::OneOf(&["left", "right", "center", "legacy"]),
    Some("left"),
);

const SPACING: AttributeRow = AttributeRow("spacing", Count::Once, Range::Number(1, 9), Some("1"));

const BIT: AttributeRow = AttributeRow("bit", Count::Incoming, Range::End, None);

const VALUE: AttributeRow = AttributeRow("value", Count::Once, Range::Literal, Some("0x1"));

const PULL: AttributeRow = AttributeRow(
    "pull",
    Count::Once,
    Range::OneOf(&["0", "1", "X"]),
    Some("0"),
);

const IN_WIDTH: AttributeRow = AttributeRow(
    "in_width",
    Count::Once,
    Range::Number(1, 64),
    Some("8"),
);

const OUT_WIDTH: AttributeRow = AttributeRow(
    "out_width",
    Count::Once,
    Range::Number(1, 64),
    Some("16"),
);

const TYPE: AttributeRow = AttributeRow(
    "type",
    Count::Once,
    Range::OneOf(&["zero", "one", "sign", "input"]),
    Some("zero"),
);

pub static PIN: Entry = Entry {
    name: "Pin",
    attributes: &[FACING, OUTPUT, PIN_TYPE, WIDTH, LABEL],
    ports: &[PortRow(
        Side::Both,
        "p",
        Count::Once,
        Size::Width,
        Place::At(0, 0),
        Loose::Unknown,
    )],
    delay: Delay::None,
};

pub static TUNNEL: Entry = Entry {
    name: "Tunnel",
    attributes: &[FACING, WIDTH, LABEL],
    ports: &[PortRow(
        Side::Both,
        "p",
        Count::Once,
        Size::Width,
        Place::At(0, 0),
        Loose::Unknown,
    )],
    delay: Delay::None,
};

pub static SPLITTER: Entry = Entry {
    name: "Splitter",
    attributes: &[FACING, INCOMING, FANOUT, APPEAR, SPACING, BIT],
    ports: &[PortRow(
        Side::Both,
        "c",
        Count::Once,
        Size::Incoming,
        Place::At(0, 0),
        Loose::Unknown,
    )],
    delay: Delay::None,
};

pub static CLOCK: Entry = Entry {
    name: "Clock",
    attributes: &[FACING],
    ports: &[PortRow(
        Side::Both,
        "p",
        Count::Once,
        Size::One,
        Place::At(0, 0),
        Loose::Unknown,
    )],
    delay: Delay::None,
};

pub static CONSTANT: Entry = Entry {
    name: "Constant",
    attributes: &[FACING, WIDTH, VALUE],
    ports: &[PortRow(
        Side::Out,
        "out",
        Count::Once,
        Size::Width,
        Place::At(0, 0),
        Loose::Unknown,
    )],
    delay: Delay::Instants(1),
};

pub static POWER: Entry = Entry {
    name: "Power",
    attributes: &[FACING, WIDTH],
    ports: &[PortRow(
        Side::Out,
        "out",
        Count::Once,
        Size::Width,
        Place::At(0, 0),
        Loose::Unknown,
    )],
    delay: Delay::Instants(1),
};

pub static GROUND: Entry = Entry {
    name: "Ground",
    attributes: &[FACING, WIDTH],
    ports: &[PortRow(
        Side::Out,
        "out",
        Count::Once,
        Size::Width,
        Place::At(0, 0),
        Loose::Unknown,
    )],
    delay: Delay::Instants(1),
};

pub static PULL_RESISTOR: Entry = Entry {
    name: "Pull Resistor",
    attributes: &[FACING, PULL],
    ports: &[PortRow(
        Side::Both,
        "p",
        Count::Once,
        Size::Any,
        Place::At(0, 0),
        Loose::Unknown,
    )],
    delay: Delay::None,
};

pub static BIT_EXTENDER: Entry = Entry {
    name: "Bit Extender",
    attributes: &[FACING, IN_WIDTH, OUT_WIDTH, TYPE],
    ports: &[
        PortRow(
            Side::In,
            "in",
            Count::Once,
            Size::InWidth,
            Place::At(-40, 0),
            Loose::Unknown,
        ),
        PortRow(
            Side::In,
            "ext",
            Count::Extended,
            Size::One,
            Place::At(-20, -20),
            Loose::Unknown,
        ),
        PortRow(
            Side::Out,
            "out",
            Count::Once,
            Size::OutWidth,
            Place::At(0, 0),
            Loose::Unknown,
        ),
    ],
    delay: Delay::Instants(1),
};
