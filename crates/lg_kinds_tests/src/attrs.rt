//! Attributes with a name that stands twice.

use lg_attrs::{Attrs, is_among, names_differ};
use lg_text::Text;
use sqlite_items::Items;
use std::alloc::{AllocError, Global};
use std::test::Fail;

fn attrs_of(alloc: Global, pairs: &[(&str, &str)]) -> Result<Attrs, AllocError> {
    let mut list = Items::new(alloc);
    for (name, value) in pairs {
        let name = Text::copy_of(alloc, name)?;
        let value = Text::copy_of(alloc, value)?;
        list.push((name, value))?;
    }
    Ok(Attrs { list })
}

#[test]
fn the_first_value_of_a_name_counts(rt: HostRuntime) -> Result<(), Fail> {
    let pairs = [("width", "8"), ("label", "A"), ("width", "4")];
    let attrs = attrs_of(rt.alloc(), &pairs)?;
    assert!(rt; matches!(attrs.value("width"), Some(value) if value.as_str() == "8"));
    assert!(rt; attrs.value("facing").is_none());
    assert!(rt; !attrs.has_only(&["label", "width"]));
    assert!(rt; !names_differ(rt.alloc(), attrs.list.as_slice())?);
    Ok(())
}

#[test]
fn names_are_among_others(rt: HostRuntime) -> Result<(), Fail> {
    let attrs = attrs_of(rt.alloc(), &[("width", "8"), ("label", "A")])?;
    assert!(rt; attrs.has_only(&["label", "width", "facing"]));
    assert!(rt; !attrs.has_only(&["label"]));
    assert!(rt; is_among("width", &["label", "width"]));
    Ok(())
}
