//! Multiplexers, demultiplexers and decoders.

ghost use Rattle.std.specs.Prelude.{◌≡◌, ◌^◌, length};
ghost use Rattle.lg_gates.specs.Plexer.{first_width, HaveOneWidth, pick_word, spread_word, enabled_word};

use lg_value::{Bit, Word};

/// The word of a multiplexer without enable: the selected item as it is. An undefined select gives an
/// error in each bit. There are 2 to the select's width items, of one width.
pub fn pick(select: &Word, items: &[Word]) -> Word
    requires count { length items.now ≡ 2 ^ length select.now }
    requires widths { HaveOneWidth items.now }
    ensures word { result ≡ pick_word select.now items.now }
    ensures width { length result ≡ first_width items.now }
{
    if select.defined() {
        items[select.number() as usize]
    } else {
        Word::fill(items[0].width(), Bit::Error)
    }
}

/// The word of one output of a demultiplexer, or with an input of 1 of a decoder, without enable: the
/// input where `place` is the selected output, else `off` in each bit. An undefined select gives an
/// error in each bit.
pub fn spread(select: &Word, input: &Word, place: u32, off: Bit) -> Word
    ensures word { result ≡ spread_word select.now input.now place off }
    ensures width { length result ≡ length input.now }
{
    if !select.defined() {
        Word::fill(input.width(), Bit::Error)
    } else if select.number() == u64::from(place) {
        *input
    } else {
        Word::fill(input.width(), off)
    }
}

/// The word of a plexer's output under an enable: 0 gives `off` in each bit, an error gives an error in
/// each bit, and 1 or a floating enable lets the value through.
pub fn enabled(enable: Bit, value: &Word, off: Bit) -> Word
    ensures word { result ≡ enabled_word enable value.now off }
    ensures width { length result ≡ length value.now }
{
    match enable {
        Bit::Zero => Word::fill(value.width(), off),
        Bit::Error => Word::fill(value.width(), Bit::Error),
        Bit::One | Bit::Unknown => *value,
    }
}
