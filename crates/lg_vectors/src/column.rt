//! Columns of a vector.

use lg_text::Text;

/// A column of a vector: the name of a pin and its width.
#[derive(Debug, Drop)]
pub struct Column {
    pub name: Text,
    pub width: u32,
}
