//! What holds something: flip-flops, registers, counters, shift registers and memories.

use crate::attributes::{FLAG, WIDTH, WIDTH_8};
use crate::port::{Loose, Side};
use crate::rows::{AttributeRow, Count, Delay, Entry, Place, PortRow, Range, Size};

const EDGE: AttributeRow = AttributeRow(
    "trigger",
    Count::Once,
    Range::OneOf(&["rising", "falling"]),
    Some("rising"),
);

const TRIGGER: AttributeRow = AttributeRow(
    "trigger",
    Count::Once,
    Range::OneOf(&["rising", "falling", "high", "low"]),
    Some("rising"),
);

const MAX: AttributeRow = AttributeRow("max", Count::Once, Range::Literal, None);

const ONGOAL: AttributeRow = AttributeRow(
    "ongoal",
    Count::Once,
    Range::OneOf(&["wrap", "stay", "continue", "load"]),
    Some("wrap"),
);

const LENGTH: AttributeRow = AttributeRow("length", Count::Once, Range::Number(1, 64), Some("8"));

const PARALLEL: AttributeRow = AttributeRow("parallel", Count::Once, FLAG, Some("true"));

const ADDR_WIDTH: AttributeRow = AttributeRow(
    "addrWidth",
    Count::Once,
    Range::Number(1, 24),
    Some("8"),
);

const DATA_WIDTH: AttributeRow = AttributeRow(
    "dataWidth",
    Count::Once,
    Range::Number(1, 64),
    Some("8"),
);

const CONTENTS: AttributeRow = AttributeRow("contents", Count::Once, Range::Contents, Some(""));

pub static DFLIP_FLOP: Entry = Entry {
    name: "D Flip-Flop",
    attributes: &[TRIGGER],
    ports: &[
        PortRow(
            Side::In,
            "in",
            Count::Once,
            Size::One,
            Place::At(-10, 10),
            Loose::Unknown,
        ),
        PortRow(
            Side::In,
            "clk",
            Count::Once,
            Size::One,
            Place::At(-10, 50),
            Loose::Unknown,
        ),
        PortRow(
            Side::In,
            "pre",
            Count::Once,
            Size::One,
            Place::At(20, 0),
            Loose::Zero,
        ),
        PortRow(
            Side::In,
            "clr",
            Count::Once,
            Size::One,
            Place::At(20, 60),
            Loose::Zero,
        ),
        PortRow(
            Side::Out,
            "q",
            Count::Once,
            Size::One,
            Place::At(50, 10),
            Loose::Unknown,
        ),
        PortRow(
            Side::Out,
            "nq",
            Count::Once,
            Size::One,
            Place::At(50, 50),
            Loose::Unknown,
        ),
    ],
    delay: Delay::Instants(5),
};

pub static TFLIP_FLOP: Entry = Entry {
    name: "T Flip-Flop",
    attributes: &[EDGE],
    ports: &[
        PortRow(
            Side::In,
            "in",
            Count::Once,
            Size::One,
            Place::At(-10, 10),
            Loose::Unknown,
        ),
        PortRow(
            Side::In,
            "clk",
            Count::Once,
            Size::One,
            Place::At(-10, 50),
            Loose::Unknown,
        ),
        PortRow(
            Side::In,
            "pre",
            Count::Once,
            Size::One,
            Place::At(20, 0),
            Loose::Zero,
        ),
        PortRow(
            Side::In,
            "clr",
            Count::Once,
            Size::One,
            Place::At(20, 60),
            Loose::Zero,
        ),
        PortRow(
            Side::Out,
            "q",
            Count::Once,
            Size::One,
            Place::At(50, 10),
            Loose::Unknown,
        ),
        PortRow(
            Side::Out,
            "nq",
            Count::Once,
            Size::One,
            Place::At(50, 50),
            Loose::Unknown,
        ),
    ],
    delay: Delay::Instants(5),
};

pub static JK_FLIP_FLOP: Entry = Entry {
    name: "J-K Flip-Flop",
    attributes: &[EDGE],
    ports: &[
        PortRow(
            Side::In,
            "in0",
            Count::Once,
            Size::One,
            Place::At(-10, 10),
            Loose::Unknown,
        ),
        PortRow(
            Side::In,
            "in1",
            Count::Once,
            Size::One,
            Place::At(-10, 30),
            Loose::Unknown,
        ),
        PortRow(
            Side::In,
            "clk",
            Count::Once,
            Size::One,
            Place::At(-10, 50),
            Loose::Unknown,
        ),
        PortRow(
            Side::In,
            "pre",
            Count::Once,
            Size::One,
            Place::At(20, 0),
            Loose::Zero,
        ),
        PortRow(
            Side::In,
            "clr",
            Count::Once,
            Size::One,
            Place::At(20, 60),
            Loose::Zero,
        ),
        PortRow(
            Side::Out,
            "q",
            Count::Once,
            Size::One,
            Place::At(50, 10),
            Loose::Unknown,
        ),
        PortRow(
            Side::Out,
            "nq",
            Count::Once,
            Size::One,
            Place::At(50, 50),
            Loose::Unknown,
        ),
    ],
    delay: Delay::Instants(5),
};

pub static SR_FLIP_FLOP: Entry = Entry {
    name: "S-R Flip-Flop",
    attributes: &[TRIGGER],
    ports: &[
        PortRow(
            Side::In,
            "in0",
            Count::Once,
            Size::One,
            Place::At(-10, 10),
            Loose::Unknown,
        ),
        PortRow(
            Side::In,
            "in1",
            Count::Once,
            Size::One,
            Place::At(-10, 30),
            Loose::Unknown,
        ),
        PortRow(
            Side::In,
            "clk",
            Count::Once,
            Size::One,
            Place::At(-10, 50),
            Loose::Unknown,
        ),
        PortRow(
            Side::In,
            "pre",
            Count::Once,
            Size::One,
            Place::At(20, 0),
            Loose::Zero,
        ),
        PortRow(
            Side::In,
            "clr",
            Count::Once,
            Size::One,
            Place::At(20, 60),
            Loose::Zero,
        ),
        PortRow(
            Side::Out,
            "q",
            Count::Once,
            Size::One,
            Place::At(50, 10),
            Loose::Unknown,
        ),
        PortRow(
            Side::Out,
            "nq",
            Count::Once,
            Size::One,
            Place::At(50, 50),
            Loose::Unknown,
        ),
    ],
    delay: Delay::Instants(5),
};

pub static REGISTER: Entry = Entry {
    name: "Register",
    attributes: &[WIDTH_8, TRIGGER],
    ports: &[
        PortRow(
            Side::In,
            "d",
            Count::Once,
            Size::Width,
            Place::At(0, 30),
            Loose::Unknown,
        ),
        PortRow(
            Side::In,
            "en",
            Count::Once,
            Size::One,
            Place::At(0, 50),
            Loose::One,
        ),
        PortRow(
            Side::In,
            "clk",
            Count::Once,
            Size::One,
            Place::At(0, 70),
            Loose::Unknown,
        ),
        PortRow(
            Side::In,
            "clr",
            Count::Once,
            Size::One,
            Place::At(30, 90),
            Loose::Zero,
        ),
        PortRow(
            Side::Out,
            "q",
            Count::Once,
            Size::Width,
            Place::At(60, 30),
            Loose::Unknown,
        ),
    ],
    delay: Delay::Instants(8),
};

pub static COUNTER: Entry = Entry {
    name: "Counter",
    attributes: &[WIDTH_8, MAX, ONGOAL, EDGE],
    ports: &[
        PortRow(
            Side::In,
            "d",
            Count::Once,
            Size::Width,
            Place::At(0, 110),
            Loose::Zero,
        ),
        PortRow(
            Side::In,
            "ld",
            Count::Once,
            Size::One,
            Place::At(0, 30),
            Loose::Zero,
        ),
        PortRow(
            Side::In,
            "ud",
            Count::Once,
            Size::One,
            Place::At(0, 50),
            Loose::One,
        ),
        PortRow(
            Side::In,
            "en",
            Count::Once,
            Size::One,
            Place::At(0, 70),
            Loose::One,
        ),
        PortRow(
            Side::In,
            "clk",
            Count::Once,
            Size::One,
            Place::At(0, 80),
            Loose::Unknown,
        ),
        PortRow(
            Side::In,
            "clr",
            Count::Once,
            Size::One,
            Place::At(0, 20),
            Loose::Zero,
        ),
        PortRow(
            Side::Out,
            "q",
            Count::Once,
            Size::Width,
            Place::At(140, 110),
            Loose::Unknown,
        ),
        PortRow(
            Side::Out,
            "carry",
            Count::Once,
            Size::One,
            Place::At(140, 50),
            Loose::Unknown,
        ),
    ],
    delay: Delay::Instants(8),
};

pub static SHIFT_REGISTER: Entry = Entry {
    name: "Shift Register",
    attributes: &[WIDTH, LENGTH, PARALLEL, EDGE],
    ports: &[
        PortRow(
            Side::In,
            "si",
            Count::Once,
            Size::Width,
            Place::At(0, 30),
            Loose::Unknown,
        ),
        PortRow(
            Side::In,
            "sh",
            Count::Once,
            Size::One,
            Place::At(0, 40),
            Loose::One,
        ),
        PortRow(
            Side::In,
            "clk",
            Count::Once,
            Size::One,
            Place::At(0, 50),
            Loose::Unknown,
        ),
        PortRow(
            Side::In,
            "clr",
            Count::Once,
            Size::One,
            Place::At(0, 20),
            Loose::Zero,
        ),
        PortRow(
            Side::In,
            "ld",
            Count::Parallel,
            Size::One,
            Place::At(0, 60),
            Loose::Zero,
        ),
        PortRow(
            Side::In,
            "d",
            Count::Stages,
            Size::Width,
            Place::Row(0, 80, 20),
            Loose::Zero,
        ),
        PortRow(
            Side::Out,
            "q",
            Count::Stages,
            Size::Width,
            Place::Row(100, 80, 20),
            Loose::Unknown,
        ),
        PortRow(
            Side::Out,
            "q",
            Count::Serial,
            Size::Width,
            Place::At(100, 80),
            Loose::Unknown,
        ),
    ],
    delay: Delay::Instants(8),
};

pub static ROM: Entry = Entry {
    name: "ROM",
    attributes: &[ADDR_WIDTH, DATA_WIDTH, CONTENTS],
    ports: &[
        PortRow(
            Side::In,
            "a",
            Count::Once,
            Size::AddrWidth,
            Place::At(0, 10),
            Loose::Unknown,
        ),
        PortRow(
            Side::Out,
            "out",
            Count::Once,
            Size::DataWidth,
            Place::At(240, 60),
            Loose::Unknown,
        ),
    ],
    delay: Delay::Instants(10),
};

pub static RAM: Entry = Entry {
    name: "RAM",
    attributes: &[ADDR_WIDTH, DATA_WIDTH, EDGE],
    ports: &[
        PortRow(
            Side::In,
            "a",
            Count::Once,
            Size::AddrWidth,
            Place::At(0, 10),
            Loose::Unknown,
        ),
        PortRow(
            Side::In,
            "d",
            Count::Once,
            Size::DataWidth,
            Place::At(0, 90),
            Loose::Unknown,
        ),
        PortRow(
            Side::In,
            "we",
            Count::Once,
            Size::One,
            Place::At(0, 50),
            Loose::Zero,
        ),
        PortRow(
            Side::In,
            "clk",
            Count::Once,
            Size::One,
            Place::At(0, 70),
            Loose::Unknown,
        ),
        PortRow(
            Side::Out,
            "out",
            Count::Once,
            Size::DataWidth,
            Place::At(240, 90),
            Loose::Unknown,
        ),
    ],
    delay: Delay::Instants(10),
};
