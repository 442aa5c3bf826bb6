//! Operands, and the outputs that their numbers give.

ghost use Rattle.std.specs.Prelude.{◌≡◌, ◌≤◌, length};
ghost use Rattle.lg_value.specs.Word.{IsWidth, word_of_number};
ghost use Rattle.lg_arith.specs.Operands.{are_defined, counted_bit, counted_word, is_defined_word, bit_of_test, top_bit};

use lg_value::{Bit, Word};

// A bit of an operand that may float, as it counts.
pub(crate) fn counted_bit(bit: Bit) -> Bit
    ensures { result ≡ counted_bit bit }
{
    match bit {
        Bit::Unknown => Bit::Zero,
        _ => bit,
    }
}

// An operand that may float, as it counts.
pub(crate) fn counted_word(word: &Word) -> Word
    ensures { result ≡ counted_word word.now }
{
    word.map(counted_bit)
}

// Whether each bit of a word is Zero or One.
fn is_defined_word(word: &Word) -> bool
    ensures { result ≡ is_defined_word word.now }
{
    word.defined()
}

// Whether each bit of each operand is Zero or One.
#[tactic(auto, unfolding(crate::specs::Operands::are_defined))]
pub(crate) fn are_defined(operands: &[Word]) -> bool
    ensures { result ≡ are_defined operands.now }
{
    operands.iter().all(is_defined_word)
}

// The bit that tells whether something is so.
pub(crate) fn bit_of_test(test: bool) -> Bit
    ensures { result ≡ bit_of_test test }
{
    if test { Bit::One } else { Bit::Zero }
}

// The word of the low `width` bits of `n`.
pub(crate) fn low_word(width: u32, n: u128) -> Word
    requires { IsWidth width }
    ensures bits { result ≡ word_of_number width n }
    ensures width { length result ≡ width }
{
    Word::from_number(width, (n % (1 << 64)) as u64)
}

// The highest bit of a word.
pub(crate) fn top_bit(word: &Word) -> Bit
    ensures { result ≡ top_bit word.now }
{
    word.bit(word.width() - 1)
}
