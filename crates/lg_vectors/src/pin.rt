//! What a vector needs to know of a pin.

use lg_text::Text;

/// The name and the width of a pin, and whether it is an input.
#[derive(Debug, Drop)]
pub struct PinShape {
    pub name: Text,
    pub width: u32,
    pub input: bool,
}
