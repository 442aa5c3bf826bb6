//! The words at a part's inputs.

ghost use Rattle.std.specs.Prelude.{◌≡◌, ◌^◌, ◌<◌, ◌≤◌, length, IfSome};
ghost use Rattle.lg_memory.specs.Inputs.{word_at, bit_at, defined_number};

use lg_value::{Bit, Word};

// The lowest bit of the word at a place.
pub fn bit_at(words: &[Word], place: usize) -> Bit
    requires { 1 ≤ length (word_at words.now place) }
    ensures { result ≡ bit_at words.now place }
{
    words[place].bit(0)
}

// The number of a word, if each of its bits is 0 or 1.
pub fn defined_number(word: &Word) -> Option<u64>
    ensures number { result ≡ defined_number word.now }
    ensures fits { IfSome result (λ n. n < 2 ^ length word.now) }
{
    if word.defined() {
        Some(word.number())
    } else {
        None
    }
}
