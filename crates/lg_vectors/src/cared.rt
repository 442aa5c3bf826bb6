//! Values of which only some bits are cared for.

ghost use Rattle.std.specs.Prelude.{◌≡◌, ◌↔◌, ◌<◌, length, IsTrue};
ghost use Rattle.lg_value.specs.Word.{IsWidth};
ghost use Rattle.lg_vectors.specs.Apart.{AreApart};
ghost use Rattle.lg_vectors.specs.CaredBits.{IsCared, Passes};
ghost use Rattle.lg_vectors.specs.Values.{cared_but};

use lg_value::{Bit, Word};
use std::marker::Model;

/// A value of 1 to 64 bits, of which only some are cared for. In a contract it is two defined words of one width: its
/// bits, and a word with 1 at each place that is cared for. A bit that is not cared for is 0.
#[derive(Debug, Drop)]
pub struct Cared {
    bits: u64,
    care: u64,
    width: u32,
}

impl Model for Cared {
    ghost use Rattle.lg_vectors.specs.CaredBits.{CaredBits, cared_of, IsKept};

    ghost Value = { CaredBits };

    ghost view = { λ c. cared_of c.width c.bits c.care };

    ghost invariant = { λ c. IsKept c.width c.bits c.care };
}

impl Cared {
    /// The value of two words of one width. They are defined, and a bit that is not cared for is 0.
    pub fn new(bits: &Word, care: &Word) -> Cared
        requires { IsCared (length bits.now) (record { bits = bits.now; care = care.now }) }
        ensures bits { result.bits ≡ bits.now }
        ensures care { result.care ≡ care.now }
    {
        Cared {
            bits: bits.number(),
            care: care.number(),
            width: bits.width(),
        }
    }

    // The value of a number, with the places cared for at which `free` has a 0. The number has a 0 where `free` has a 1.
    pub(crate) fn but(width: u32, number: u64, free: u64) -> Cared
        requires width { IsWidth width }
        requires apart { AreApart number free }
        ensures { result ≡ cared_but width number free }
    {
        Cared {
            bits: number,
            care: !free,
            width,
        }
    }

    /// The number of bits, 1 to 64.
    pub fn width(&self) -> u32
        ensures length { result ≡ length self.now.bits }
        ensures cared { IsCared result self.now }
    {
        self.width
    }

    /// The bits; one that is not cared for is 0.
    pub fn bits(&self) -> Word
        ensures bits { result ≡ self.now.bits }
        ensures cared { IsCared (length result) self.now }
    {
        Word::from_number(self.width, self.bits)
    }

    /// A word with 1 at each place that is cared for.
    pub fn care(&self) -> Word
        ensures bits { result ≡ self.now.care }
        ensures cared { IsCared (length result) self.now }
    {
        Word::from_number(self.width, self.care)
    }
}

/// Whether each bit of `got` that is cared for is the one that is wanted. The widths are equal.
pub fn passes(got: &Word, wanted: &Cared) -> bool
    requires { length got.now ≡ length wanted.now.bits }
    ensures { IsTrue result ↔ Passes got.now wanted.now }
{
    let bits = wanted.bits();
    let care = wanted.care();
    for place in 0..got.width() {
        if care.bit(place) == Bit::One && got.bit(place) != bits.bit(place) {
            return false;
        }
    }
    true
}
