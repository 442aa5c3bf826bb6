//! The attributes that kinds of several families have.

use crate::rows::{AttributeRow, Count, Range};

pub const FLAG: Range = Range::OneOf(&["true", "false"]);

pub const FACING: AttributeRow = AttributeRow(
    "facing",
    Count::Once,
    Range::OneOf(&["east", "west", "north", "south"]),
    Some("east"),
);

pub const WIDTH: AttributeRow = AttributeRow("width", Count::Once, Range::Number(1, 64), Some("1"));

pub const WIDTH_8: AttributeRow = AttributeRow(
    "width",
    Count::Once,
    Range::Number(1, 64),
    Some("8"),
);
