//! The ranges of attributes.

ghost use Rattle.std.specs.Prelude.{ℕ, ◌^◌, ◌<◌, ◌≤◌, ◌↔◌, IsTrue, MatchOption};
ghost use Rattle.lg_ports.specs.Given.{seen_given};
ghost use Rattle.lg_ports.specs.Ranges.{InRange, IsWithin, IsEnd, IsLiteral, Says};
ghost use Rattle.lg_kinds.specs.Rows.{seen_range};

use crate::contents::{behind, is_contents};
use crate::given::{Given, number_of};
use lg_attrs::is_among;
use lg_kinds::rows::Range;
use lg_memory::read_number;

// Whether a value is in a range.
pub fn is_in(range: Range, given: &Given, text: &str) -> bool
    ensures { IsTrue result ↔ InRange (seen_given given.now) (seen_range range) text.now }
{
    match range {
        Range::Any => true,
        Range::OneOf(words) => is_among(text, words),
        Range::Number(low, high) => is_within(text, low, high),
        Range::Group => is_within(text, 1, given.number("width")),
        Range::End => is_end(text, given.number("fanout")),
        Range::Literal => is_literal(text),
        Range::Contents => is_contents(
            text.as_bytes(),
            given.number("addrWidth"),
            given.number("dataWidth"),
        ),
    }
}

fn is_within(text: &str, low: u32, high: u32) -> bool
    ensures { IsTrue result ↔ IsWithin low high text.now }
{
    match number_of(text) {
        Some(number) => low <= number && number <= high,
        None => false,
    }
}

fn is_end(text: &str, fanout: u32) -> bool
    ensures { IsTrue result ↔ IsEnd fanout text.now }
{
    if text == "none" {
        return true;
    }
    match number_of(text) {
        Some(number) => number < fanout,
        None => false,
    }
}

fn is_literal(text: &str) -> bool
    ensures { IsTrue result ↔ IsLiteral text.now }
{
    match literal_of(text) {
        Some(_) => true,
        None => false,
    }
}

/// The number that a text says, in decimal digits or behind `0x` in hexadecimal ones, if it has at most 64 bits.
pub fn literal_of(text: &str) -> Option<u64>
    ensures { MatchOption result
        ((n : ℕ) → Says text.now n → 2 ^ 64 ≤ n)
        (λ n. Says text.now n × (n < 2 ^ 64)) }
{
    let bytes = text.as_bytes();
    match behind(bytes, b"0x") {
        Some(digits) => read_number(digits, 16, u64::MAX),
        None => read_number(bytes, 10, u64::MAX),
    }
}
