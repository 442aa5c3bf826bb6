//! Arithmetic.

use crate::attributes::{FACING, WIDTH_8};
use crate::port::{Loose, Side};
use crate::rows::{AttributeRow, Count, Delay, Entry, Place, PortRow, Range, Size};

const UNSIGNED: AttributeRow = AttributeRow(
    "mode",
    Count::Once,
    Range::OneOf(&["unsigned"]),
    Some("unsigned"),
);

const MODE: AttributeRow = AttributeRow(
    "mode",
    Count::Once,
    Range::OneOf(&["unsigned", "twosComplement"]),
    Some("twosComplement"),
);

const SHIFT: AttributeRow = AttributeRow(
    "shift",
    Count::Once,
    Range::OneOf(&["ll", "lr", "ar", "rl", "rr"]),
    Some("ll"),
);

const COUNTED: AttributeRow = AttributeRow("inputs", Count::Once, Range::Number(1, 64), Some("1"));

pub static ADDER: Entry = Entry {
    name: "Adder",
    attributes: &[FACING, WIDTH_8],
    ports: &[
        PortRow(
            Side::In,
            "a",
            Count::Once,
            Size::Width,
            Place::At(-40, -10),
            Loose::Unknown,
        ),
        PortRow(
            Side::In,
            "b",
            Count::Once,
            Size::Width,
            Place::At(-40, 10),
            Loose::Unknown,
        ),
        PortRow(
            Side::In,
            "cin",
            Count::Once,
            Size::One,
            Place::At(-20, -20),
            Loose::Zero,
        ),
        PortRow(
            Side::Out,
            "out",
            Count::Once,
            Size::Width,
            Place::At(0, 0),
            Loose::Unknown,
        ),
        PortRow(
            Side::Out,
            "cout",
            Count::Once,
            Size::One,
            Place::At(-20, 20),
            Loose::Unknown,
        ),
    ],
    delay: Delay::Sum,
};

pub static SUBTRACTOR: Entry = Entry {
    name: "Subtractor",
    attributes: &[FACING, WIDTH_8],
    ports: &[
        PortRow(
            Side::In,
            "a",
            Count::Once,
            Size::Width,
            Place::At(-40, -10),
            Loose::Unknown,
        ),
        PortRow(
            Side::In,
            "b",
            Count::Once,
            Size::Width,
            Place::At(-40, 10),
            Loose::Unknown,
        ),
        PortRow(
            Side::In,
            "cin",
            Count::Once,
            Size::One,
            Place::At(-20, -20),
            Loose::Zero,
        ),
        PortRow(
            Side::Out,
            "out",
            Count::Once,
            Size::Width,
            Place::At(0, 0),
            Loose::Unknown,
        ),
        PortRow(
            Side::Out,
            "cout",
            Count::Once,
            Size::One,
            Place::At(-20, 20),
            Loose::Unknown,
        ),
    ],
    delay: Delay::Sum,
};

pub static MULTIPLIER: Entry = Entry {
    name: "Multiplier",
    attributes: &[FACING, WIDTH_8, UNSIGNED],
    ports: &[
        PortRow(
            Side::In,
            "a",
            Count::Once,
            Size::Width,
            Place::At(-40, -10),
            Loose::Unknown,
        ),
        PortRow(
            Side::In,
            "b",
            Count::Once,
            Size::Width,
            Place::At(-40, 10),
            Loose::Unknown,
        ),
        PortRow(
            Side::In,
            "cin",
            Count::Once,
            Size::Width,
            Place::At(-20, -20),
            Loose::Zero,
        ),
        PortRow(
            Side::Out,
            "out",
            Count::Once,
            Size::Width,
            Place::At(0, 0),
            Loose::Unknown,
        ),
        PortRow(
            Side::Out,
            "high",
            Count::Once,
            Size::Width,
            Place::At(-20, 20),
            Loose::Unknown,
        ),
    ],
    delay: Delay::Product,
};

pub static DIVIDER: Entry = Entry {
    name: "Divider",
    attributes: &[FACING, WIDTH_8, UNSIGNED],
    ports: &[
        PortRow(
            Side::In,
            "a",
            Count::Once,
            Size::Width,
            Place::At(-40, -10),
            Loose::Unknown,
        ),
        PortRow(
            Side::In,
            "b",
            Count::Once,
            Size::Width,
            Place::At(-40, 10),
            Loose::Unknown,
        ),
        PortRow(
            Side::In,
            "upper",
            Count::Once,
            Size::Width,
            Place::At(-20, -20),
            Loose::Zero,
        ),
        PortRow(
            Side::Out,
            "out",
            Count::Once,
            Size::Width,
            Place::At(0, 0),
            Loose::Unknown,
        ),
        PortRow(
            Side::Out,
            "rem",
            Count::Once,
            Size::Width,
            Place::At(-20, 20),
            Loose::Unknown,
        ),
    ],
    delay: Delay::Product,
};

pub static NEGATOR: Entry = Entry {
    name: "Negator",
    attributes: &[FACING, WIDTH_8],
    ports: &[
        PortRow(
            Side::In,
            "in",
            Count::Once,
            Size::Width,
            Place::At(-40, 0),
            Loose::Unknown,
        ),
        PortRow(
            Side::Out,
            "out",
            Count::Once,
            Size::Width,
            Place::At(0, 0),
            Loose::Unknown,
        ),
    ],
    delay: Delay::Sum,
};

pub static COMPARATOR: Entry = Entry {
    name: "Comparator",
    attributes: &[FACING, WIDTH_8, MODE],
    ports: &[
        PortRow(
            Side::In,
            "a",
            Count::Once,
            Size::Width,
            Place::At(-40, -10),
            Loose::Unknown,
        ),
        PortRow(
            Side::In,
            "b",
            Count::Once,
            Size::Width,
            Place::At(-40, 10),
            Loose::Unknown,
        ),
        PortRow(
            Side::Out,
            "gt",
            Count::Once,
            Size::One,
            Place::At(0, -10),
            Loose::Unknown,
        ),
        PortRow(
            Side::Out,
            "eq",
            Count::Once,
            Size::One,
            Place::At(0, 0),
            Loose::Unknown,
        ),
        PortRow(
            Side::Out,
            "lt",
            Count::Once,
            Size::One,
            Place::At(0, 10),
            Loose::Unknown,
        ),
    ],
    delay: Delay::Sum,
};

pub static SHIFTER: Entry = Entry {
    name: "Shifter",
    attributes: &[FACING, WIDTH_8, SHIFT],
    ports: &[
        PortRow(
            Side::In,
            "in",
            Count::Once,
            Size::Width,
            Place::At(-40, -10),
            Loose::Unknown,
        ),
        PortRow(
            Side::In,
            "dist",
            Count::Once,
            Size::Distance,
            Place::At(-40, 10),
            Loose::Unknown,
        ),
        PortRow(
            Side::Out,
            "out",
            Count::Once,
            Size::Width,
            Place::At(0, 0),
            Loose::Unknown,
        ),
    ],
    delay: Delay::Sum,
};

pub static BIT_ADDER: Entry = Entry {
    name: "BitAdder",
    attributes: &[FACING, WIDTH_8, COUNTED],
    ports: &[
        PortRow(
            Side::In,
            "in",
            Count::Inputs,
            Size::Width,
            Place::Row(-40, 0, 10),
            Loose::Unknown,
        ),
        PortRow(
            Side::Out,
            "out",
            Count::Once,
            Size::Total,
            Place::At(0, 0),
            Loose::Unknown,
        ),
    ],
    delay: Delay::Sum,
};
