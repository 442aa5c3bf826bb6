//! Where names stand among others.

ghost use Rattle.std.specs.Prelude.{◌≡◌, true, map, IfOk};
ghost use Rattle.lg_vrules.specs.Rules.{all_differ};
ghost use Rattle.lg_vrules.specs.Indexes.{index_under, KnowsIndexes};

use lg_vtree::Memory;
use std::alloc::Global;
use std::collections::BTreeMap;

/// The index of each of some names, from 0 on.
#[derive(Drop)]
pub struct Indexes {
    indexes: BTreeMap<String, usize>,
}

impl Indexes {
    /// The indexes of names that differ.
    pub fn of(alloc: Global, names: &[&str]) -> Result<Indexes, Memory>
        requires { all_differ (map (λ name. name.now) names.now) ≡ true }
        ensures { IfOk result (KnowsIndexes (map (λ name. name.now) names.now)) }
    {
        let mut indexes = BTreeMap::new(alloc);
        for (at, name) in names.iter().enumerate() {
            indexes.insert(String::from_str(alloc, name)?, at)?;
        }
        Ok(Indexes { indexes })
    }

    /// The index of a name; none of another name.
    pub fn get(&self, name: &str) -> Option<usize>
        ensures { result ≡ index_under self.now name.now }
    {
        self.indexes.get(name).copied()
    }
}
