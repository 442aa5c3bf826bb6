//! Places that are found by two names.

ghost use Rattle.std.specs.Prelude.{ℕ, List, ◌≡◌, OnOk, None, is_some};
ghost use Rattle.std.specs.Set.{distinct_count, is_member};
ghost use Rattle.std.specs.Str.{bytes_eq};
ghost use Rattle.lg_kinds.specs.Index.{found, Puts};

use std::alloc::{AllocError, Global};
use std::collections::BTreeMap;

// A place for each of some pairs of names, such as a kind's and a port's.
#[derive(Debug, Drop)]
pub struct Index {
    places: BTreeMap<String, BTreeMap<String, usize>>,
}

impl Index {
    // The index without a place.
    pub fn new(alloc: Global) -> Index
        ensures { (first second : List ℕ) → found result first second ≡ None }
    {
        Index {
            places: BTreeMap::new(alloc),
        }
    }

    // The place under two names.
    pub fn find(&self, first: &str, second: &str) -> Option<usize>
        ensures { result ≡ found self.now first.now second.now }
    {
        self.places.get(first)?.get(second).copied()
    }

    // How many places are under a first name.
    pub fn count(&self, first: &str) -> usize
        ensures { (names : List (List ℕ)) → ((q : List ℕ) → is_member bytes_eq names q ≡ is_some (found self.now first.now q)) → result ≡ distinct_count bytes_eq names }
    {
        match self.places.get(first) {
            Some(inside) => inside.len(),
            None => 0,
        }
    }

    // Puts a place under two names, instead of the one that is there.
    pub fn put(
        &mut self,
        alloc: Global,
        first: &str,
        second: &str,
        place: usize,
    ) -> Result<(), AllocError>
        ensures { OnOk result (Puts first.now second.now place self.old self.new) }
    {
        let second = String::from_str(alloc, second)?;
        if let Some(inside) = self.places.get_mut(first) {
            inside.insert(second, place)?;
            return Ok(());
        }
        let mut inside = BTreeMap::new(alloc);
        inside.insert(second, place)?;
        self.places.insert(String::from_str(alloc, first)?, inside)?;
        Ok(())
    }
}
