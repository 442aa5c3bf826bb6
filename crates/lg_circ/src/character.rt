//! Characters of the text: as they stand, by their names and by their numbers.

ghost use Rattle.std.specs.Prelude.{◌≡◌, ◌<◌, ◌≤◌, min, string_bytes};
ghost use Rattle.std.specs.List.{list_all};
ghost use Rattle.std.specs.Char.{is_ascii_digit, is_ascii_hexdigit};
ghost use Rattle.lg_circ.specs.Grammar.{character_of, are_digits, numbered, number_in, hex_digit};
ghost use Rattle.lg_circ.specs.Reading.{Gives, said_after, said_of, reference_at};

use crate::class::{Class, split_after};
use crate::fault::CircFault;
use crate::mark::{after, strip};
use lg_text::Text;
use std::alloc::Global;

/// The characters that a text without `<` stands for, its references replaced.
pub fn said(alloc: Global, raw: &str) -> Result<Text, CircFault>
    ensures { Gives (λ t. t) result (said_of raw.now) }
{
    let said = say(String::new(alloc), raw)?;
    Ok(Text::from_string(said))
}

/// Adds the characters that a text without `<` stands for, its references replaced.
pub fn say(mut said: String, raw: &str) -> Result<String, CircFault>
    ensures { Gives string_bytes result (said_after (string_bytes said) (said_of raw.now)) }
{
    let mut rest = raw;
    'references: loop {
        let (own, more) = split_after(rest, Class::Own);
        said.push_str(own)?;
        match after(more, "&") {
            None => return Ok(said),
            Some(more) => {
                let (c, behind) = reference(more)?;
                said.push(c)?;
                rest = behind;
            }
        }
    }
}

/// The character behind a `&`, and what follows its `;`.
#[tactic(auto, unfolding(crate::specs::Reading::reference_at))]
fn reference(text: &str) -> Result<(char, &str), CircFault>
    ensures { Gives (λ x. (x.0, x.1.now)) result (reference_at text.now) }
{
    let (name, end) = split_after(text, Class::Reference);
    let c = character(name).ok_or(CircFault::NotProject)?;
    let rest = strip(end, ";")?;
    Ok((c, rest))
}

/// The character of a name, as `lt`, or of a number, as `#60` and `#x3c`.
pub fn character(name: &str) -> Option<char>
    ensures { result ≡ character_of name.now }
{
    if name == "lt" {
        return Some('<');
    }
    if name == "gt" {
        return Some('>');
    }
    if name == "amp" {
        return Some('&');
    }
    if name == "quot" {
        return Some('"');
    }
    if name == "apos" {
        return Some('\'');
    }
    let bytes = name.as_bytes();
    if bytes.starts_with(b"#x") {
        return hexadecimal(&bytes[2..]);
    }
    if bytes.starts_with(b"#") {
        return decimal(&bytes[1..]);
    }
    None
}

fn hexadecimal(digits: &[u8]) -> Option<char>
    ensures { result ≡ numbered is_ascii_hexdigit 16 digits.now }
{
    if are_hexadecimal(digits) {
        char::from_u32(number(digits, 16))
    } else {
        None
    }
}

fn decimal(digits: &[u8]) -> Option<char>
    ensures { result ≡ numbered is_ascii_digit 10 digits.now }
{
    if are_decimal(digits) {
        char::from_u32(number(digits, 10))
    } else {
        None
    }
}

fn are_hexadecimal(digits: &[u8]) -> bool
    ensures { result ≡ are_digits is_ascii_hexdigit digits.now }
{
    !digits.is_empty() && all_hexadecimal(digits)
}

/// Whether the bytes are decimal digits, at least one.
pub fn are_decimal(digits: &[u8]) -> bool
    ensures { result ≡ are_digits is_ascii_digit digits.now }
{
    !digits.is_empty() && all_decimal(digits)
}

fn all_hexadecimal(digits: &[u8]) -> bool
    ensures { result ≡ list_all is_ascii_hexdigit digits.now }
{
    digits.iter().all(|c| c.is_ascii_hexdigit())
}

fn all_decimal(digits: &[u8]) -> bool
    ensures { result ≡ list_all is_ascii_digit digits.now }
{
    digits.iter().all(|c| c.is_ascii_digit())
}

/// Where numbers end: above each character, and above each limit of a project.
pub const PAST_NUMBERS: u32 = 0x11_0000;

/// The number that the digits say in the base, or `PAST_NUMBERS` where it is greater.
pub fn number(digits: &[u8], base: u32) -> u32
    requires some { 1 ≤ base }
    requires small { base ≤ 16 }
    ensures { result ≡ min (number_in base digits.now) PAST_NUMBERS }
{
    let mut number: u32 = 0;
    for c in digits {
        number = PAST_NUMBERS.min(base * number + digit(*c));
    }
    number
}

fn digit(c: u8) -> u32
    ensures value { result ≡ hex_digit c }
    ensures small { result < 256 }
{
    let zero = if c <= b'9' {
        b'0'
    } else if c <= b'F' {
        b'A' - 10
    } else {
        b'a' - 10
    };
    u32::from(c.saturating_sub(zero))
}
