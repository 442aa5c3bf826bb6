//! Ranges of ports and declarations.

ghost use Rattle.std.specs.Prelude.{◌≡◌, ◌≤◌, None, Some, IsTrue};
ghost use Rattle.lg_vtree.specs.Token.{is_range};

use std::marker::Model;

/// `[high:0] ` before a name, with a high index of at least 1, or nothing. In a contract it is the
/// high index, where there is one.
#[derive(Debug, Drop)]
pub struct Range {
    high: Option<u128>,
}

impl Model for Range {
    ghost use Rattle.std.specs.Prelude.{Option, ℕ, IsTrue};
    ghost use Rattle.lg_vtree.specs.Token.{is_range};

    ghost Value = { Option ℕ };

    ghost view = { λ r. r.high };

    ghost invariant = { λ r. IsTrue (is_range r.high) };
}

impl Range {
    /// No range: what is declared has one bit.
    pub fn bit() -> Range
        ensures { result ≡ None }
    {
        Range { high: None }
    }

    /// The range from a high index down to 0.
    pub fn down_from(high: u128) -> Range
        requires { 1 ≤ high }
        ensures { result ≡ Some high }
    {
        Range { high: Some(high) }
    }

    /// The high index, where there is a range.
    pub fn high(&self) -> Option<u128>
        ensures value { result ≡ self.now }
        ensures is_range { IsTrue (is_range self.now) }
    {
        self.high
    }
}
