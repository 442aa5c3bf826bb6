//! Plexers: what chooses among words.

use crate::attributes::{FACING, FLAG, WIDTH, WIDTH_8};
use crate::port::{Loose, Side};
use crate::rows::{AttributeRow, Count, Delay, Entry, Place, PortRow, Range, Size};

const SELECT: AttributeRow = AttributeRow("select", Count::Once, Range::Number(1, 5), Some("1"));

const SELECT_3: AttributeRow = AttributeRow("select", Count::Once, Range::Number(1, 5), Some("3"));

const ENABLE: AttributeRow = AttributeRow("enable", Count::Once, FLAG, Some("false"));

const DISABLED: AttributeRow = AttributeRow(
    "disabled",
    Count::Once,
    Range::OneOf(&["Z", "0"]),
    Some("Z"),
);

const SELLOC: AttributeRow = AttributeRow(
    "selloc",
    Count::Once,
    Range::OneOf(&["bl", "tr"]),
    Some("bl"),
);

const TRISTATE: AttributeRow = AttributeRow("tristate", Count::Once, FLAG, Some("false"));

const GROUP: AttributeRow = AttributeRow("group", Count::Once, Range::Group, Some("1"));

pub static MULTIPLEXER: Entry = Entry {
    name: "Multiplexer",
    attributes: &[FACING, WIDTH, SELECT, ENABLE, DISABLED, SELLOC],
    ports: &[
        PortRow(
            Side::In,
            "in",
            Count::Selections,
            Size::Width,
            Place::FanIn,
            Loose::Unknown,
        ),
        PortRow(
            Side::In,
            "sel",
            Count::Once,
            Size::Select,
            Place::Aside(-20),
            Loose::Unknown,
        ),
        PortRow(
            Side::In,
            "en",
            Count::Enabled,
            Size::One,
            Place::Aside(-10),
            Loose::One,
        ),
        PortRow(
            Side::Out,
            "out",
            Count::Once,
            Size::Width,
            Place::At(0, 0),
            Loose::Unknown,
        ),
    ],
    delay: Delay::Instants(3),
};

pub static DEMULTIPLEXER: Entry = Entry {
    name: "Demultiplexer",
    attributes: &[FACING, WIDTH, SELECT, ENABLE, DISABLED, SELLOC, TRISTATE],
    ports: &[
        PortRow(
            Side::In,
            "in",
            Count::Once,
            Size::Width,
            Place::At(0, 0),
            Loose::Unknown,
        ),
        PortRow(
            Side::In,
            "sel",
            Count::Once,
            Size::Select,
            Place::Aside(20),
            Loose::Unknown,
        ),
        PortRow(
            Side::In,
            "en",
            Count::Enabled,
            Size::One,
            Place::Aside(10),
            Loose::One,
        ),
        PortRow(
            Side::Out,
            "out",
            Count::Selections,
            Size::Width,
            Place::FanOut,
            Loose::Unknown,
        ),
    ],
    delay: Delay::Instants(3),
};

pub static DECODER: Entry = Entry {
    name: "Decoder",
    attributes: &[FACING, SELECT, ENABLE, DISABLED, TRISTATE],
    ports: &[
        PortRow(
            Side::In,
            "sel",
            Count::Once,
            Size::Select,
            Place::At(0, 0),
            Loose::Unknown,
        ),
        PortRow(
            Side::In,
            "en",
            Count::Enabled,
            Size::One,
            Place::At(-10, 0),
            Loose::One,
        ),
        PortRow(
            Side::Out,
            "out",
            Count::Selections,
            Size::One,
            Place::Column(20),
            Loose::Unknown,
        ),
    ],
    delay: Delay::Instants(3),
};

pub static PRIORITY_ENCODER: Entry = Entry {
    name: "Priority Encoder",
    attributes: &[FACING, SELECT_3, DISABLED],
    ports: &[
        PortRow(
            Side::In,
            "in",
            Count::Selections,
            Size::One,
            Place::Column(-40),
            Loose::Zero,
        ),
        PortRow(
            Side::In,
            "en",
            Count::Once,
            Size::One,
            Place::Beneath(-20),
            Loose::One,
        ),
        PortRow(
            Side::Out,
            "addr",
            Count::Once,
            Size::Select,
            Place::At(0, 0),
            Loose::Unknown,
        ),
        PortRow(
            Side::Out,
            "group",
            Count::Once,
            Size::One,
            Place::At(0, 10),
            Loose::Unknown,
        ),
        PortRow(
            Side::Out,
            "eout",
            Count::Once,
            Size::One,
            Place::Above(-20),
            Loose::Unknown,
        ),
    ],
    delay: Delay::Instants(3),
};

pub static BIT_SELECTOR: Entry = Entry {
    name: "BitSelector",
    attributes: &[FACING, WIDTH_8, GROUP],
    ports: &[
        PortRow(
            Side::In,
            "in",
            Count::Once,
            Size::Width,
            Place::At(-30, 0),
            Loose::Unknown,
        ),
        PortRow(
            Side::In,
            "sel",
            Count::Once,
            Size::GroupSelect,
            Place::At(-10, 10),
            Loose::Unknown,
        ),
        PortRow(
            Side::Out,
            "out",
            Count::Once,
            Size::Group,
            Place::At(0, 0),
            Loose::Unknown,
        ),
    ],
    delay: Delay::Instants(3),
};
