//! The attributes of a component, as its project has them.

ghost use Rattle.std.specs.Prelude.{◌≡◌};
ghost use Rattle.std.specs.Option.{option_copied};
ghost use Rattle.lg_attrs.specs.Pairs.{value_under, has_only, texts};

use crate::pairs::{has_only, value_under};
use lg_text::Text;
use sqlite_items::Items;

/// Names and values, in file order. Of one name twice the first counts.
#[derive(Debug, Drop)]
pub struct Attrs {
    pub list: Items<(Text, Text)>,
}

impl Attrs {
    /// The first value under a name.
    pub fn value(&self, name: &str) -> Option<&Text>
        ensures { option_copied result ≡ value_under name.now self.now.list }
    {
        value_under(name, self.list.as_slice())
    }

    /// Whether it has these names alone, each at most once. In time linear in the attributes where the names are few.
    pub fn has_only(&self, names: &[&str]) -> bool
        ensures { result ≡ has_only (texts names.now) self.now.list }
    {
        has_only(names, self.list.as_slice())
    }
}
