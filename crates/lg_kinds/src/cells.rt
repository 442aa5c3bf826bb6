//! The fields of the records of a port table.

ghost use Rattle.std.specs.Prelude.{ℕ, ℤ, List, ◌≡◌, ◌≢◌, ◌≤◌, ◌<◌, ◌↔◌, length, IsTrue, IfOk, IfSome, MatchOption};
ghost use Rattle.std.specs.Int.NonZero.{non_zero_u8_get};
ghost use Rattle.csv.specs.Records.{fields_of};
ghost use Rattle.lg_kinds.specs.Cells.{cells};
ghost use Rattle.lg_kinds.specs.TableFile.{heading, most_of, is_one_of, has_port, has_attribute, has_effect, is_padded, IsNumber, IsOffset, IsDelay};

use crate::kind::Kind;
use crate::names::name_at;
use crate::rows::Count;
use crate::table::entry;
use csv::StringRecord;
use lg_memory::read_number;
use std::alloc::{AllocError, Global};
use std::num::NonZeroU8;

// The five fields of a record.
#[derive(Clone, Copy)]
pub struct Cells<'a> {
    pub word: &'a str,
    pub name: &'a str,
    pub item: &'a str,
    pub a: &'a str,
    pub b: &'a str,
}

// The fields of a record, where they are five.
pub fn cells_of(row: &StringRecord) -> Option<Cells<'_>>
    ensures { MatchOption result
        (length (fields_of row.now) ≢ 5)
        (λ found. fields_of row.now ≡ cells found) }
{
    if row.len() != 5 {
        return None;
    }
    Some(Cells {
        word: row.get(0).unwrap_or(""),
        name: row.get(1).unwrap_or(""),
        item: row.get(2).unwrap_or(""),
        a: row.get(3).unwrap_or(""),
        b: row.get(4).unwrap_or(""),
    })
}

// Whether a record is the header.
pub fn is_header(row: &StringRecord) -> bool
    ensures { IsTrue result ↔ (fields_of row.now ≡ heading) }
{
    match cells_of(row) {
        Some(cells) => {
            cells.word == "row"
                && cells.name == "name"
                && cells.item == "item"
                && cells.a == "a"
                && cells.b == "b"
        }
        None => false,
    }
}

// Whether a kind has a port of this name under some attributes.
pub fn has_port(alloc: Global, kind: Kind, text: &str) -> Result<bool, AllocError>
    ensures { IfOk result (λ found. found ≡ has_port kind text.now) }
{
    for row in entry(kind).ports {
        if is_one_of(alloc, row.1, row.2, text)? {
            return Ok(true);
        }
    }
    Ok(false)
}

// Whether a kind has an attribute of this name under some attributes.
pub fn has_attribute(alloc: Global, kind: Kind, text: &str) -> Result<bool, AllocError>
    ensures { IfOk result (λ found. found ≡ has_attribute kind text.now) }
{
    for row in entry(kind).attributes {
        if is_one_of(alloc, row.0, row.1, text)? {
            return Ok(true);
        }
    }
    Ok(false)
}

// Whether a kind has an effect.
pub fn has_effect(kind: Kind) -> bool
    ensures { result ≡ has_effect kind }
{
    entry(kind).ports.len() > 0
}

// Whether a text is a name that a row gives under some attributes.
#[tactic(auto, using(crate::proofs::CellLemmas::ranged))]
fn is_one_of(alloc: Global, name: &str, count: Count, text: &str) -> Result<bool, AllocError>
    ensures { IfOk result (λ found. found ≡ is_one_of name.now count text.now) }
{
    for k in 0..most_of(count) {
        let own = name_at(alloc, name, count, k)?;
        if text == own.as_str() {
            return Ok(true);
        }
    }
    Ok(false)
}

// How often a row stands at most, under any attributes.
fn most_of(count: Count) -> u32
    ensures { result ≡ most_of count }
{
    match count {
        Count::Inputs | Count::Incoming | Count::Stages => 64,
        Count::Selections => 32,
        Count::Once | Count::Enabled | Count::Extended | Count::Parallel | Count::Serial => 1,
    }
}

// The delay that a text says.
pub fn delay_of(text: &str) -> Option<NonZeroU8>
    ensures { MatchOption result ((n : ℕ) → IsDelay text.now n → ⊥) (λ n. IsDelay text.now (non_zero_u8_get n)) }
{
    match plain_number(text.as_bytes(), 255) {
        Some(number) => NonZeroU8::new(number as u8),
        None => None,
    }
}

// The offset that a text says.
pub fn offset_of(text: &str) -> Option<i16>
    ensures { MatchOption result ((z : ℤ) → IsOffset text.now z → ⊥) (λ z. IsOffset text.now z) }
{
    let bytes = text.as_bytes();
    match bytes.strip_prefix(b"-") {
        Some(digits) => match plain_number(digits, 10_000) {
            Some(number) => Some(-(number as i16)),
            None => None,
        },
        None => match plain_number(bytes, 10_000) {
            Some(number) => Some(number as i16),
            None => None,
        },
    }
}

// The number that a text is in decimal digits without a zero in front, if it is at most `most`.
fn plain_number(text: &[u8], most: u64) -> Option<u64>
    ensures { MatchOption result
        ((n : ℕ) → IsNumber text.now n → most < n)
        (λ n. IsNumber text.now n × (n ≤ most)) }
{
    if is_padded(text) {
        return None;
    }
    read_number(text, 10, most)
}

fn is_padded(text: &[u8]) -> bool
    ensures { result ≡ is_padded text.now }
{
    text.len() > 1 && text[0] == b'0'
}
