//! Names, numbers and constants as they are written.

ghost use Rattle.std.specs.Prelude.{◌≡◌, ◌<◌, ◌↔◌, length, slice_index, IsTrue};
ghost use Rattle.std.specs.List.{list_all};
ghost use Rattle.std.specs.Str.{all_ascii_digits};
ghost use Rattle.lg_text.specs.NameByte.{is_name_byte};
ghost use Rattle.lg_vtree.specs.Token.{is_name, is_long_name};
ghost use Rattle.lg_vread.specs.Reading.{operator_of, operators};
ghost use Rattle.lg_vread.specs.Lexing.{number_of, constant_of, after_d, before_quote, after_quote};

use lg_vtree::{Constant, Operator};

/// How many letters, digits and `_` a name has at most after its first two.
const MOST_MORE: usize = 298;

/// Whether the bytes are a name.
pub fn is_name(word: &[u8]) -> bool
    ensures { result ≡ is_name word.now }
{
    word == b"clk".as_slice() || is_long_name(word)
}

fn is_long_name(word: &[u8]) -> bool
    ensures { result ≡ is_long_name word.now }
{
    match word {
        [] | [_] => false,
        [first, second, rest @ ..] => {
            first.is_ascii_alphabetic()
                && (second.is_ascii_digit() || *second == b'_')
                && are_name_bytes(rest)
                && rest.len() <= MOST_MORE
        }
    }
}

fn are_name_bytes(bytes: &[u8]) -> bool
    ensures { result ≡ list_all is_name_byte bytes.now }
{
    bytes
        .iter()
        .all(|c| c.is_ascii_alphanumeric() || *c == b'_')
}

fn are_digits(bytes: &[u8]) -> bool
    ensures { result ≡ all_ascii_digits bytes.now }
{
    for c in bytes {
        if !c.is_ascii_digit() {
            return false;
        }
    }
    true
}

/// The number that the bytes write in decimal digits, without leading zeros.
pub fn number_of(word: &[u8]) -> Option<u128>
    ensures { result ≡ number_of word.now }
{
    if !are_digits(word) {
        return None;
    }
    if has_leading_zero(word) {
        return None;
    }
    match str::from_utf8(word) {
        Ok(digits) => digits.parse().ok(),
        Err(_) => None,
    }
}

fn has_leading_zero(digits: &[u8]) -> bool
    ensures { IsTrue result ↔ (slice_index digits.now 0 ≡ 48) × (1 < length digits.now) }
{
    digits.len() > 1 && digits[0] == b'0'
}

/// The constant that the bytes write, as `8'd5`.
pub fn constant_of(word: &[u8]) -> Option<Constant>
    ensures { result ≡ constant_of word.now }
{
    let (width, value) = split_quote(word);
    let width = number_of(width)?;
    let value = after_d(value)?;
    Some(Constant { width, value })
}

/// The number after a `d`.
fn after_d(bytes: &[u8]) -> Option<u128>
    ensures { result ≡ after_d bytes.now }
{
    match bytes {
        [b'd', digits @ ..] => number_of(digits),
        _ => None,
    }
}

/// What stands before the first `'`, and what stands after it.
fn split_quote(word: &[u8]) -> (&[u8], &[u8])
    ensures before { result.0.now ≡ before_quote word.now }
    ensures after { result.1.now ≡ after_quote word.now }
{
    for (at, c) in word.iter().enumerate() {
        if *c == b'\'' {
            return (&word[..at], &word[at + 1..]);
        }
    }
    (word, b"".as_slice())
}

/// The operator that the bytes spell.
pub fn operator_of(word: &[u8]) -> Option<Operator>
    ensures { result ≡ operator_of operators word.now }
{
    for operator in &Operator::ALL {
        if word == operator.as_str().as_bytes() {
            return Some(*operator);
        }
    }
    None
}
