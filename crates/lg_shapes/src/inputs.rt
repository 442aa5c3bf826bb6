//! The words at a part's inputs.

ghost use Rattle.std.specs.Prelude.{◌≡◌, ◌≤◌, length};
ghost use Rattle.lg_memory.specs.Inputs.{word_at, bit_at};

use lg_value::{Bit, Word};

// The lowest bit of the word at an index.
pub fn bit_at(inputs: &[Word], index: usize) -> Bit
    requires { 1 ≤ length (word_at inputs.now index) }
    ensures { result ≡ bit_at inputs.now index }
{
    inputs[index].bit(0)
}
