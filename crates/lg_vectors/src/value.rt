//! Values of columns, as a vector spells them.

ghost use Rattle.std.specs.Prelude.{ℕ, List, ◌++◌, ◌≡◌, ◌-◌, ◌^◌, ◌≤◌, MatchOption};
ghost use Rattle.lg_value.specs.Word.{IsWidth};
ghost use Rattle.lg_vectors.specs.Values.{AreCounted, IsPrefixed, IsBinary, IsPositive, IsSubtracted, IsDecimal, IsValue, Lacks};

use crate::cared::Cared;
use crate::digits::{greatest, read_decimals, read_digits};

// The value that a word is in a width, by the first of the three forms that it has.
pub fn read_value(word: &[u8], width: u32) -> Option<Cared>
    requires { IsWidth width }
    ensures { MatchOption result (Lacks (IsValue width) word.now) (IsValue width word.now) }
{
    match prefixed(word, width) {
        Some(value) => Some(value),
        None => match binary(word, width) {
            Some(value) => Some(value),
            None => decimal(word, width),
        },
    }
}

// `0x` and hexadecimal digits, or `0o` and octal ones.
fn prefixed(word: &[u8], width: u32) -> Option<Cared>
    requires { IsWidth width }
    ensures { MatchOption result (Lacks (IsPrefixed width) word.now) (IsPrefixed width word.now) }
{
    match behind(word, b"0x") {
        Some(text) => counted(text, 4, width),
        None => match behind(word, b"0o") {
            Some(text) => counted(text, 3, width),
            None => None,
        },
    }
}

// The text behind a mark.
fn behind<'a>(word: &'a [u8], mark: &[u8]) -> Option<&'a [u8]>
    ensures { MatchOption result
        ((text : List ℕ) → word.now ≡ mark.now ++ text → ⊥)
        (λ text. word.now ≡ mark.now ++ text.now) }
{
    word.strip_prefix(mark)
}

// At least one digit of `size` bits, and no more than the width takes.
fn counted(text: &[u8], size: u32, width: u32) -> Option<Cared>
    requires width { IsWidth width }
    requires size { (1 ≤ size) × (size ≤ 4) }
    ensures { MatchOption result (Lacks (AreCounted size width) text.now) (AreCounted size width text.now) }
{
    let most = (width + size - 1) / size;
    if text.is_empty() || text.len() > most as usize {
        return None;
    }
    read_digits(text, size, width)
}

// A binary digit for each bit.
fn binary(word: &[u8], width: u32) -> Option<Cared>
    requires { IsWidth width }
    ensures { MatchOption result (Lacks (IsBinary width) word.now) (IsBinary width word.now) }
{
    if word.len() != width as usize {
        return None;
    }
    read_digits(word, 1, width)
}

// A decimal number, with `-` or without.
fn decimal(word: &[u8], width: u32) -> Option<Cared>
    requires { IsWidth width }
    ensures { MatchOption result (Lacks (IsDecimal width) word.now) (IsDecimal width word.now) }
{
    match behind(word, b"-") {
        Some(text) => subtracted(text, width),
        None => positive(word, width),
    }
}

fn positive(word: &[u8], width: u32) -> Option<Cared>
    requires { IsWidth width }
    ensures { MatchOption result (Lacks (IsPositive width) word.now) (IsPositive width word.now) }
{
    let number = read_decimals(word, width, greatest(width))?;
    Some(Cared::but(width, number, 0))
}

// In two's complement, the number that the digits are below 0.
fn subtracted(text: &[u8], width: u32) -> Option<Cared>
    requires { IsWidth width }
    ensures { MatchOption result (Lacks (IsSubtracted width) text.now) (IsSubtracted width text.now) }
{
    let number = read_decimals(text, width, half(width))?;
    let rest = greatest(width) - number;
    Some(Cared::but(width, rest.wrapping_add(1), 0))
}

// Half of the numbers of a width.
fn half(width: u32) -> u64
    requires { IsWidth width }
    ensures { result ≡ 2 ^ (width - 1) }
{
    1 << (width - 1)
}
