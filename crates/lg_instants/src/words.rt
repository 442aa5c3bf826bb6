//! A list of words.

ghost use Rattle.std.specs.Prelude.{◌≡◌, IfOk, [], slice_index_or};

use lg_value::Word;
use std::alloc::{AllocError, Global};
use std::marker::Model;

/// Words, one for each of some ports or pins, or the state of a part. In a contract it is their
/// list.
#[derive(Debug, Drop)]
pub struct Words {
    words: Vec<Word>,
}

impl Model for Words {
    ghost use Rattle.std.specs.Prelude.{List};
    ghost use Rattle.lg_value.specs.declared.bit.Bit.{Bit};

    ghost Value = { List (List Bit) };

    ghost view = { λ w. w.words.items };
}

impl Words {
    /// These words.
    pub fn new(words: Vec<Word>) -> Words
        ensures { result ≡ words.items }
    {
        Words { words }
    }

    /// A copy of some words.
    pub fn copy_of(alloc: Global, words: &[Word]) -> Result<Words, AllocError>
        ensures { IfOk result (λ copy. copy ≡ words.now) }
    {
        Ok(Words::new(Vec::from_slice(alloc, words)?))
    }

    /// The words in their order.
    pub fn words(&self) -> &[Word]
        ensures { result.now ≡ self.now }
    {
        self.words.as_slice()
    }
}

// The words at a place of a list, and none past its end.
pub(crate) fn words_of(list: &[Words], place: usize) -> &[Word]
    ensures { result.now ≡ slice_index_or list.now place [] }
{
    match list.get(place) {
        Some(words) => words.words(),
        None => &[],
    }
}
