//! Words as texts.

ghost use Rattle.std.specs.Prelude.{IfSome};
ghost use Rattle.lg_value.specs.Word.{IsWidth};

use lg_value::{Bit, Word};
use std::alloc::Global;
use std::io;

/// The word of a text: `8:200` is a number in so many bits, `64*x` one bit so many times, and else the
/// text is the bits, the highest first.
pub fn word_of(text: &str) -> Option<Word> {
    if let Some((width, number)) = text.split_once(':') {
        let width = width_of(width)?;
        Some(Word::from_number(width, number.parse::<u64>().ok()?))
    } else if let Some((width, bit)) = text.split_once('*') {
        let width = width_of(width)?;
        match bit.as_bytes() {
            [bit] => Some(Word::fill(width, bit_of(*bit)?)),
            _ => None,
        }
    } else {
        word_of_bits(text.as_bytes())
    }
}

// A number of 1 to 64.
fn width_of(text: &str) -> Option<u32>
    ensures { IfSome result IsWidth }
{
    match text.parse::<u32>() {
        Ok(width) if 1 <= width && width <= 64 => Some(width),
        _ => None,
    }
}

// The bit of a character.
fn bit_of(byte: u8) -> Option<Bit> {
    match byte {
        b'0' => Some(Bit::Zero),
        b'1' => Some(Bit::One),
        b'x' => Some(Bit::Unknown),
        b'E' => Some(Bit::Error),
        _ => None,
    }
}

fn word_of_bits(bits: &[u8]) -> Option<Word> {
    let (first, rest) = bits.split_first()?;
    let mut word = Word::fill(1, bit_of(*first)?);
    for byte in rest {
        let low = Word::fill(1, bit_of(*byte)?);
        if word.width() >= 64 {
            return None;
        }
        word = low.glue(&word);
    }
    Some(word)
}

/// The bits of a word, the highest first.
pub fn text_of(alloc: Global, word: &Word) -> io::Result<String> {
    let mut text = String::new(alloc);
    for place in (0..word.width()).rev() {
        text.push_str(match word.bit(place) {
            Bit::Zero => "0",
            Bit::One => "1",
            Bit::Unknown => "x",
            Bit::Error => "E",
        })?;
    }
    Ok(text)
}
