//! Names as the emitted modules spell them.

ghost use Rattle.std.specs.Prelude.{◌≡◌, IsTrue};
ghost use Rattle.lg_vtree.specs.Token.{is_name};

use lg_text::Text;
use std::marker::Model;

/// A name as emitted modules have them: `clk`, or a letter with a digit or `_` behind it and then up to
/// 298 more letters, digits and `_`, all of ASCII.
#[derive(Debug, Drop)]
pub struct Name {
    text: Text,
}

impl Model for Name {
    ghost use Rattle.std.specs.Prelude.{List, ℕ, IsTrue};

    ghost Value = { List ℕ };

    ghost use Rattle.lg_vtree.specs.Token.{is_name};

    ghost view = { λ n. n.text };

    ghost invariant = { λ n. IsTrue (is_name n.text) };
}

impl Name {
    /// The name with this spelling.
    pub fn new(text: Text) -> Name
        requires { IsTrue (is_name text) }
        ensures { result ≡ text }
    {
        Name { text }
    }

    /// Its spelling.
    pub fn as_str(&self) -> &str
        ensures spelling { result.now ≡ self.now }
        ensures is_name { IsTrue (is_name self.now) }
    {
        self.text.as_str()
    }
}
