//! What the table of kinds says of one kind.

use crate::port::{Loose, Side};

/// How often a row of the table stands for an attribute or a port. What stands for several is numbered from 0.
#[derive(Clone, Copy)]
pub enum Count {
    /// Once, without a number.
    Once,
    /// For each of `inputs`.
    Inputs,
    /// For each of `incoming`.
    Incoming,
    /// For each number that `select` bits can have.
    Selections,
    /// Once where `enable` is true.
    Enabled,
    /// Once where `type` is `input`.
    Extended,
    /// Once where `parallel` is true.
    Parallel,
    /// Once where `parallel` is not true.
    Serial,
    /// For each of `length` where `parallel` is true.
    Stages,
}

/// Which values an attribute may have.
#[derive(Clone, Copy)]
pub enum Range {
    /// Every text.
    Any,
    /// These words.
    OneOf(&'static [&'static str]),
    /// The numbers from the one to the other.
    Number(u32, u32),
    /// The numbers from 1 to `width`.
    Group,
    /// The numbers below `fanout`, and `none`.
    End,
    /// The numbers of 64 bits, in decimal digits or in hexadecimal ones behind `0x`.
    Literal,
    /// The contents of a ROM.
    Contents,
}

/// How many bits a port has.
#[derive(Clone, Copy)]
pub enum Size {
    /// As many as there are.
    Any,
    /// One.
    One,
    /// What the attribute says.
    Width,
    InWidth,
    OutWidth,
    Incoming,
    Group,
    Select,
    AddrWidth,
    DataWidth,
    /// Enough to number the groups of the data.
    GroupSelect,
    /// Enough to number the bits of the data.
    Distance,
    /// Enough for the number of ones in all inputs.
    Total,
}

/// Where a port stands, with the part facing east.
#[derive(Clone, Copy)]
pub enum Place {
    /// At a point.
    At(i16, i16),
    /// The first at a point, each next one so much lower.
    Row(i16, i16, u16),
    /// As far to the left as the part is large.
    Behind,
    /// At the back of a gate, whose body is so much longer than its size.
    GateInput(u16),
    /// Above the part or below it, as `control` says.
    Control,
    /// The inputs of a multiplexer.
    FanIn,
    /// The outputs of a demultiplexer.
    FanOut,
    /// One for each selection, at this x.
    Column(i16),
    /// At this x, below the selections, or above them, as `selloc` says.
    Aside(i16),
    /// At this x, below the selections.
    Beneath(i16),
    /// At this x, above the selections.
    Above(i16),
}

/// How many instants a part takes.
#[derive(Clone, Copy)]
pub enum Delay {
    /// It is no part.
    None,
    Instants(u8),
    /// 2 more than `width`.
    Sum,
    /// `width` times two more than `width`, at most 255.
    Product,
}

/// An attribute: its name, how often it stands, its range, and the value that it has where it is left out.
#[derive(Clone, Copy)]
pub struct AttributeRow(
    pub &'static str,
    pub Count,
    pub Range,
    pub Option<&'static str>,
);

/// A port: its side, its name, how often it stands, its width, its place and its loose value.
#[derive(Clone, Copy)]
pub struct PortRow(
    pub Side,
    pub &'static str,
    pub Count,
    pub Size,
    pub Place,
    pub Loose,
);

/// One kind: its name, its attributes in order, its ports in order and its delay.
#[derive(Clone, Copy)]
pub struct Entry {
    pub name: &'static str,
    pub attributes: &'static [AttributeRow],
    pub ports: &'static [PortRow],
    pub delay: Delay,
}
