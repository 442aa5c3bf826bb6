//! What shows something and has no effect.

use crate::rows::{Delay, Entry};

pub static PROBE: Entry = Entry {
    name: "Probe",
    attributes: &[],
    ports: &[],
    delay: Delay::None,
};

pub static LED: Entry = Entry {
    name: "LED",
    attributes: &[],
    ports: &[],
    delay: Delay::None,
};

pub static TEXT: Entry = Entry {
    name: "Text",
    attributes: &[],
    ports: &[],
    delay: Delay::None,
};

pub static HEX_DISPLAY: Entry = Entry {
    name: "Hex Digit Display",
    attributes: &[],
    ports: &[],
    delay: Delay::None,
};

pub static SEGMENT_DISPLAY: Entry = Entry {
    name: "7-Segment Display",
    attributes: &[],
    ports: &[],
    delay: Delay::None,
};
