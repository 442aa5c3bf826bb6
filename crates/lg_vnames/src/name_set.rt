//! Names that stand once.

ghost use Rattle.std.specs.Prelude.{◌≡◌, IfOk, map};
ghost use Rattle.lg_vnames.specs.Sets.{IsSet, holds};

use lg_vtree::Memory;
use std::alloc::Global;
use std::collections::BTreeSet;

/// A set of names.
#[derive(Drop)]
pub struct NameSet {
    names: BTreeSet<String>,
}

impl NameSet {
    /// The set of some names; none where two of them are equal.
    pub fn of(alloc: Global, names: &[&str]) -> Result<Option<NameSet>, Memory>
        ensures { IfOk result (IsSet (map (λ name. name.now) names.now)) }
    {
        let mut set = NameSet {
            names: BTreeSet::new(alloc),
        };
        for name in names {
            if set.contains(name) {
                return Ok(None);
            }
            set.names.insert(String::from_str(alloc, name)?)?;
        }
        Ok(Some(set))
    }

    /// Whether a name is in the set.
    pub fn contains(&self, name: &str) -> bool
        ensures { result ≡ holds self.now name.now }
    {
        self.names.contains(name)
    }
}
