//! A word of 1 to 64 bits.

ghost use Rattle.std.specs.Prelude.{◌≡◌, ◌+◌, ◌%◌, ◌^◌, ◌<◌, ◌≤◌, ◌↔◌, ◌++◌, length, ℕ, map, replicate, take, drop, slice_get, slice_index_or, slice_set, count_by, IsTrue, Some};
ghost use Rattle.std.specs.Cmp.{partial_equiv_from_equiv};
ghost use Rattle.std.proofs.lemmas.Cmp.{lists_equiv};
ghost use Rattle.lg_value.specs.declared.bit.Bit.{Bit};
ghost use Rattle.lg_value.specs.Bit.{same_bit, same_bit_equiv, and_bits, or_bits, xor_bits};
ghost use Rattle.lg_value.specs.Storage.{picked};
ghost use Rattle.lg_value.specs.Word.{IsWidth, IsDefined, same_word, join_words, each_pair, number_of, word_of_number};

use crate::bit::Bit;
use crate::planes::{
    bit_of_digits, chosen, digit_at, first_digit, low_ones, second_digit, with_digit,
};
use std::marker::Model;

/// A word of 1 to 64 bits. In a contract it is the list of its bits, bit 0 first.
#[derive(Clone, Copy, Debug)]
pub struct Word {
    // 1 where the bit is One or Error, and 0 past the width.
    a: u64,
    // 1 where the bit is Unknown or Error, and 0 past the width.
    b: u64,
    width: u32,
}

impl Model for Word {
    ghost use Rattle.std.specs.Prelude.{List, length};
    ghost use Rattle.lg_value.specs.declared.bit.Bit.{Bit};
    ghost use Rattle.lg_value.specs.Storage.{IsStored, word_of_planes, plane_of, first_digit, second_digit, length-word_of_planes, first_plane, second_plane};

    ghost Value = { List Bit };

    ghost view = { λ w. word_of_planes w.width w.a w.b };

    ghost invariant = { λ w. IsStored w.width w.a w.b };

    ghost inverse = { λ word. record {
      a = plane_of first_digit word;
      b = plane_of second_digit word;
      width = length word;
    } };

    ghost inverse_ok = { λ w stored i. record {
      a = first_plane w.width w.a w.b stored.first i;
      b = second_plane w.width w.a w.b stored.second i;
      width = length-word_of_planes w.width w.a w.b i;
    } };
}

impl PartialEq for Word {
    ghost eq = { same_word };

    ghost laws = { partial_equiv_from_equiv (lists_equiv same_bit_equiv) };

    fn eq(&self, other: &Word) -> bool
        ensures eq { result ≡ same_word self.now other.now }
        ensures same { IsTrue result ↔ (self.now ≡ other.now) }
    {
        (self.width == other.width) & (self.a == other.a) & (self.b == other.b)
    }
}

impl Eq for Word {
    ghost laws = { lists_equiv same_bit_equiv };
}

impl Word {
    /// The word of `width` bits that are all `bit`. The width is 1 to 64.
    pub fn fill(width: u32, bit: Bit) -> Word
        requires { IsWidth width }
        ensures bits { result ≡ replicate width bit }
        ensures width { length result ≡ width }
    {
        let ones = low_ones(width);
        Word {
            a: first_digit(bit) * ones,
            b: second_digit(bit) * ones,
            width,
        }
    }

    /// The word of the low `width` bits of `n`. The width is 1 to 64.
    pub fn from_number(width: u32, n: u64) -> Word
        requires { IsWidth width }
        ensures bits { result ≡ word_of_number width n }
        ensures width { length result ≡ width }
        ensures defined { IsDefined result }
        ensures number { number_of result ≡ n % 2 ^ width }
    {
        Word {
            a: n & low_ones(width),
            b: 0,
            width,
        }
    }

    /// The number of bits, 1 to 64.
    pub fn width(&self) -> u32
        ensures length { result ≡ length self.now }
        ensures in_range { IsWidth result }
    {
        self.width
    }

    /// The bit at place `i`, which is below the width.
    pub fn bit(&self, i: u32) -> Bit
        requires { i < length self.now }
        ensures { slice_get self.now i ≡ Some result }
    {
        bit_of_digits(digit_at(self.a, i), digit_at(self.b, i))
    }

    /// The same word with `b` at place `i`, which is below the width.
    pub fn with_bit(&self, i: u32, b: Bit) -> Word
        requires { i < length self.now }
        ensures bits { result ≡ slice_set self.now i b }
        ensures width { length result ≡ length self.now }
    {
        Word {
            a: with_digit(self.a, i, first_digit(b)),
            b: with_digit(self.b, i, second_digit(b)),
            width: self.width,
        }
    }

    /// The two words' join, bit by bit. Their widths are equal.
    pub fn join(&self, other: &Word) -> Word
        requires { length self.now ≡ length other.now }
        ensures bits { result ≡ join_words self.now other.now }
        ensures width { length result ≡ length self.now }
    {
        // Where neither is Unknown or both are, `unlike` tells whether they differ.
        let unlike = (self.a & !other.b) ^ (other.a & !self.b);
        Word {
            a: self.a | other.a,
            b: (self.b & other.b) | unlike,
            width: self.width,
        }
    }

    /// The AND of two words, bit by bit. A Zero gives Zero, and else an undefined bit gives Error.
    /// Their widths are equal.
    pub fn and(&self, other: &Word) -> Word
        requires { length self.now ≡ length other.now }
        ensures bits { result ≡ each_pair and_bits self.now other.now }
        ensures width { length result ≡ length self.now }
    {
        let no_zero = (self.a | self.b) & (other.a | other.b);
        Word {
            a: no_zero,
            b: no_zero & (self.b | other.b),
            width: self.width,
        }
    }

    /// The OR of two words, bit by bit. A One gives One, and else an undefined bit gives Error.
    /// Their widths are equal.
    pub fn or(&self, other: &Word) -> Word
        requires { length self.now ≡ length other.now }
        ensures bits { result ≡ each_pair or_bits self.now other.now }
        ensures width { length result ≡ length self.now }
    {
        let some_one = (self.a & !self.b) | (other.a & !other.b);
        let undefined = self.b | other.b;
        Word {
            a: (self.a | other.a) | undefined,
            b: undefined & !some_one,
            width: self.width,
        }
    }

    /// The XOR of two words, bit by bit. An undefined bit gives Error. Their widths are equal.
    pub fn xor(&self, other: &Word) -> Word
        requires { length self.now ≡ length other.now }
        ensures bits { result ≡ each_pair xor_bits self.now other.now }
        ensures width { length result ≡ length self.now }
    {
        let undefined = self.b | other.b;
        Word {
            a: (self.a ^ other.a) | undefined,
            b: undefined,
            width: self.width,
        }
    }

    /// The word with each bit changed. `change` is called once for each of the four bits.
    pub fn map<F: Fn(Bit) -> Bit>(&self, change: F) -> Word
        requires { F.IsAlwaysCallable change }
        ensures bits { (k : ℕ) → k < length self.now → F.post change
            (slice_index_or self.now k Bit.Unknown) (slice_index_or result k Bit.Unknown) }
        ensures width { length result ≡ length self.now }
    {
        self.replaced(
            change(Bit::Zero),
            change(Bit::One),
            change(Bit::Unknown),
            change(Bit::Error),
        )
    }

    // The word with each bit replaced by the one that is given for its value.
    fn replaced(&self, zero: Bit, one: Bit, unknown: Bit, error: Bit) -> Word
        ensures bits { result ≡ map (picked zero one unknown error) self.now }
        ensures width { length result ≡ length self.now }
    {
        let zeros = Word::fill(self.width, zero);
        let ones = Word::fill(self.width, one);
        let unknowns = Word::fill(self.width, unknown);
        let errors = Word::fill(self.width, error);
        Word {
            a: chosen(
                self.b,
                chosen(self.a, zeros.a, ones.a),
                chosen(self.a, unknowns.a, errors.a),
            ),
            b: chosen(
                self.b,
                chosen(self.a, zeros.b, ones.b),
                chosen(self.a, unknowns.b, errors.b),
            ),
            width: self.width,
        }
    }

    /// How many bits are One.
    pub fn ones(&self) -> u32
        ensures ones { result ≡ count_by (same_bit Bit.One) self.now }
        ensures inside { result ≤ length self.now }
    {
        (self.a & !self.b).count_ones()
    }

    /// The `width` bits from place `low` on. There is at least one, and all lie inside.
    pub fn cut(&self, low: u32, width: u32) -> Word
        requires some { 1 ≤ width }
        requires inside { low + width ≤ length self.now }
        ensures bits { result ≡ take width (drop low self.now) }
        ensures width { length result ≡ width }
    {
        let a = self.a >> low;
        let b = self.b >> low;
        let ones = low_ones(width);
        Word {
            a: a & ones,
            b: b & ones,
            width,
        }
    }

    /// The bits of this word and, above them, those of `high`. The widths sum to at most 64.
    pub fn glue(&self, high: &Word) -> Word
        requires { length self.now + length high.now ≤ 64 }
        ensures bits { result ≡ self.now ++ high.now }
        ensures width { length result ≡ length self.now + length high.now }
    {
        Word {
            a: (high.a << self.width) | self.a,
            b: (high.b << self.width) | self.b,
            width: self.width + high.width,
        }
    }

    /// Whether every bit is Zero or One.
    pub fn defined(&self) -> bool
        ensures { IsTrue result ↔ IsDefined self.now }
    {
        self.b == 0
    }

    /// The number whose binary digits the bits are, bit 0 the lowest. Every bit is Zero or One.
    pub fn number(&self) -> u64
        requires { IsDefined self.now }
        ensures sum { result ≡ number_of self.now }
        ensures fits { result < 2 ^ length self.now }
        ensures undone { word_of_number (length self.now) result ≡ self.now }
    {
        self.a
    }
}
