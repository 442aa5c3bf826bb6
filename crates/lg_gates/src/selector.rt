//! Bit selectors.

ghost use Rattle.std.specs.Prelude.{◌≡◌, ◌≤◌, length};
ghost use Rattle.lg_value.specs.Word.{IsWidth};
ghost use Rattle.lg_gates.specs.Selector.{bits_from, group_word};

use lg_value::{Bit, Word};

// The `count` bits of a word from a place on, 0 past its end. The count is 1 to 64.
fn bits_from(word: &Word, start: u64, count: u32) -> Word
    requires { IsWidth count }
    ensures bits { result ≡ bits_from word.now start count }
    ensures width { length result ≡ count }
    // For the caller: a start past 64 lies past every word.
    ensures short { length word.now ≤ 64 }
{
    let width = word.width();
    if start >= u64::from(width) {
        return Word::fill(count, Bit::Zero);
    }
    let low = start as u32;
    let held = width - low;
    if count <= held {
        word.cut(low, count)
    } else {
        word.cut(low, held)
            .glue(&Word::fill(count - held, Bit::Zero))
    }
}

/// The word of a bit selector: of the input's groups of `group` bits, the one that the select numbers.
/// Bits past the input's width are 0. An undefined select gives an error in each bit. A group has 1 to
/// 64 bits.
pub fn select_group(input: &Word, select: &Word, group: u32) -> Word
    requires { IsWidth group }
    ensures word { result ≡ group_word input.now select.now group }
    ensures width { length result ≡ group }
{
    if select.defined() {
        // A start that would pass 64 bits lies past every word.
        let start = select.number().saturating_mul(u64::from(group));
        bits_from(input, start, group)
    } else {
        Word::fill(group, Bit::Error)
    }
}
