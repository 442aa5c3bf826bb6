//! What a ROM and a RAM read and store.

ghost use Rattle.std.specs.Prelude.{◌≡◌, ◌^◌, ◌<◌, ◌≤◌, length, All};
ghost use Rattle.std.specs.Option.{ForSome};
ghost use Rattle.lg_value.specs.Word.{IsWidth};
ghost use Rattle.lg_memory.specs.Inputs.{word_at, defined_number};
ghost use Rattle.lg_memory.specs.Storage.{ram_words, ram_read, rom_read};

use crate::inputs::{bit_at, defined_number};
use lg_value::{Bit, Word};
use sqlite_items::Items;

// A triggered RAM stores its data in place.
pub fn store(words: &mut Items<Word>, inputs: &[Word])
    requires ports { 3 ≤ length inputs.now }
    requires address { length words.old ≡ 2 ^ length (word_at inputs.now 0) }
    requires we { 1 ≤ length (word_at inputs.now 2) }
    ensures { words.new ≡ ram_words words.old inputs.now }
{
    if bit_at(inputs, 2) == Bit::One
        && let Some(address) = defined_number(&inputs[0])
    {
        words.set(address as usize, inputs[1]);
    }
}

// The word that a RAM reads.
pub fn ram_read(width: u32, words: &[Word], address: Option<u64>) -> Word
    requires width { IsWidth width }
    requires words { All (λ word. length word ≡ width) words.now }
    requires inside { ForSome address (λ a. a < length words.now) }
    ensures word { result ≡ ram_read width words.now address }
    ensures width { length result ≡ width }
{
    match address {
        Some(place) => words[place as usize],
        None => Word::fill(width, Bit::Error),
    }
}

// The word that a ROM reads.
pub fn rom_read(width: u32, words: &[u64], address: Option<u64>) -> Word
    requires { IsWidth width }
    ensures word { result ≡ rom_read width words.now address }
    ensures width { length result ≡ width }
{
    match address {
        Some(place) => {
            let number = words.get(place as usize).copied().unwrap_or(0);
            Word::from_number(width, number)
        }
        None => Word::fill(width, Bit::Error),
    }
}
