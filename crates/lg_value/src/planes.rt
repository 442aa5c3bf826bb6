//! The two planes of binary digits in which a word stores its bits.

ghost use Rattle.std.specs.Prelude.{◌≡◌, ℕ, ◌-◌, ◌^◌, ◌<◌, ◌≤◌, ◌==◌, if◌then◌else◌};
ghost use Rattle.std.specs.Int.{bit_at};
ghost use Rattle.lg_value.specs.Word.{IsWidth};
ghost use Rattle.lg_value.specs.Storage.{first_digit, second_digit, bit_of_digits};

use crate::bit::Bit;

// The digit of a bit in the first plane.
pub(crate) fn first_digit(bit: Bit) -> u64
    ensures { result ≡ first_digit bit }
{
    match bit {
        Bit::One | Bit::Error => 1,
        Bit::Zero | Bit::Unknown => 0,
    }
}

// The digit of a bit in the second plane.
pub(crate) fn second_digit(bit: Bit) -> u64
    ensures { result ≡ second_digit bit }
{
    match bit {
        Bit::Unknown | Bit::Error => 1,
        Bit::Zero | Bit::One => 0,
    }
}

// The bit that its digits in the two planes stand for.
pub(crate) fn bit_of_digits(first: u64, second: u64) -> Bit
    ensures { result ≡ bit_of_digits first second }
{
    match (first, second) {
        (0, 0) => Bit::Zero,
        (_, 0) => Bit::One,
        (0, _) => Bit::Unknown,
        _ => Bit::Error,
    }
}

// A plane whose low `width` digits are 1 and all others 0.
pub(crate) fn low_ones(width: u32) -> u64
    requires { IsWidth width }
    ensures { result ≡ 2 ^ width - 1 }
{
    u64::MAX >> (64 - width)
}

// The digit of a plane at a place.
pub(crate) fn digit_at(plane: u64, place: u32) -> u64
    requires { place < 64 }
    ensures { result ≡ bit_at plane place }
{
    (plane >> place) & 1
}

// The plane with this digit at a place.
pub(crate) fn with_digit(plane: u64, place: u32, digit: u64) -> u64
    requires inside { place < 64 }
    requires binary { digit < 2 }
    ensures digits { (i : ℕ) → i < 64
        → bit_at result i ≡ (if i == place then digit else bit_at plane i) }
    ensures fits { (width : ℕ) → place < width → plane < 2 ^ width → result < 2 ^ width }
{
    (plane & !(1 << place)) | (digit << place)
}

// At each place the digit of `high` where the plane has a 1, else that of `low`.
pub(crate) fn chosen(plane: u64, low: u64, high: u64) -> u64
    ensures digits { (i : ℕ) → i < 64
        → bit_at result i ≡ (if bit_at plane i == 1 then bit_at high i else bit_at low i) }
    ensures fits { (width : ℕ) → low < 2 ^ width → high < 2 ^ width → result < 2 ^ width }
{
    (low & !plane) | (high & plane)
}
