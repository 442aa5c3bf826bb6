//! The elements of a project's text, of any name.

use lg_text::Text;
use sqlite_items::Items;

/// One element with all that stands inside it.
#[derive(Debug, Drop)]
pub struct Element {
    pub name: Text,
    /// Name and value of each attribute, in text order.
    pub attributes: Items<(Text, Text)>,
    /// Its own characters and references, joined, without those of the elements inside.
    pub text: Text,
    /// The elements inside, in text order.
    pub children: Items<Element>,
}
