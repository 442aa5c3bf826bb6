//! The line that names the columns.

ghost use Rattle.std.specs.Prelude.{ℕ, List, ◌≡◌, ◌<◌, ◌≤◌, ◌↔◌, ◌++◌, false, length, codes, All, IfOk, IfSome, IsTrue, MatchOption};
ghost use Rattle.std.specs.Fmt.{decimal};
ghost use Rattle.lg_value.specs.Word.{IsWidth};
ghost use Rattle.lg_vectors.specs.declared.column.Column.{Column as ColumnValue};
ghost use Rattle.lg_vectors.specs.Heading.{IsSpelled, IsBracketed, ReadsName};
ghost use Rattle.lg_vectors.specs.VectorText.{is_mark, words, IsName, IsColumn, AreNames, dash};

use crate::column::Column;
use crate::line::{next_word, place_of};
use lg_text::Text;
use sqlite_items::Items;
use std::alloc::{AllocError, Global};

// The columns that the words of a text name. There is a word.
pub fn read_columns(alloc: Global, text: &[u8]) -> Result<Option<Items<Column>>, AllocError>
    requires { 1 ≤ length (words text.now) }
    ensures names { IfOk result (λ read. MatchOption read
        ((columns : List ColumnValue) → AreNames (words text.now) columns → ⊥)
        (λ columns. AreNames (words text.now) columns)) }
    ensures widths { IfOk result (λ read. IfSome read (λ columns. All (λ c. IsWidth c.width) columns)) }
{
    let mut columns = Items::new(alloc);
    if is_dash(text) {
        return Ok(Some(columns));
    }
    let mut rest = text;
    while let Some((word, after)) = next_word(rest) {
        let Some(column) = read_column(alloc, word)? else {
            return Ok(None);
        };
        columns.push(column)?;
        rest = after;
    }
    Ok(Some(columns))
}

// Whether the only word is `-`.
pub fn is_dash(text: &[u8]) -> bool
    ensures { IsTrue result ↔ (words text.now ≡ dash) }
{
    match next_word(text) {
        Some((word, rest)) => word == b"-".as_slice() && next_word(rest).is_none(),
        None => false,
    }
}

// The column that a word names.
fn read_column(alloc: Global, word: &[u8]) -> Result<Option<Column>, AllocError>
    ensures { IfOk result (λ read. MatchOption read ((column : ColumnValue) → IsColumn word.now column → ⊥) (IsColumn word.now)) }
{
    let Some((name, width)) = split_name(word) else {
        return Ok(None);
    };
    match plain_name(name) {
        Some(name) => {
            let name = Text::copy_of(alloc, name)?;
            Ok(Some(Column { name, width }))
        }
        None => Ok(None),
    }
}

// The name and the width that a word gives: what stands before a `[`, and the number in brackets behind it.
fn split_name(word: &[u8]) -> Option<(&[u8], u32)>
    ensures { MatchOption result
        ((name : List ℕ) (width : ℕ) → All (λ c. is_mark c ≡ false) name → IsSpelled word.now name width → ⊥)
        (λ p. ReadsName word.now p.0.now p.1) }
{
    match place_of(word, b'[') {
        Some(open) => {
            let width = bracketed(&word[open..])?;
            Some((&word[..open], width))
        }
        None => Some((word, 1)),
    }
}

// The width that stands in brackets.
fn bracketed(text: &[u8]) -> Option<u32>
    ensures { MatchOption result ((width : ℕ) → IsBracketed text.now width → ⊥) (IsBracketed text.now) }
{
    for width in 1..65 {
        if is_width(text, width) {
            return Some(width);
        }
    }
    None
}

// Whether a width stands in brackets.
fn is_width(text: &[u8], width: u32) -> bool
    requires { width < 65 }
    ensures { IsTrue result ↔ (text.now ≡ codes "[" ++ (decimal width ++ codes "]")) }
{
    let ones = b'0' + (width % 10) as u8;
    if width < 10 {
        text == [b'[', ones, b']'].as_slice()
    } else {
        let tens = b'0' + (width / 10) as u8;
        text == [b'[', tens, ones, b']'].as_slice()
    }
}

// The text of a name.
fn plain_name(name: &[u8]) -> Option<&str>
    ensures { MatchOption result (IsName name.now → ⊥) (λ text. (text.now ≡ name.now) × IsName name.now) }
{
    if name.is_empty() || !is_plain(name) {
        return None;
    }
    match str::from_utf8(name) {
        Ok(text) => Some(text),
        Err(_) => None,
    }
}

fn is_plain(name: &[u8]) -> bool
    ensures { IsTrue result ↔ All (λ c. is_mark c ≡ false) name.now }
{
    for byte in name {
        if is_mark(*byte) {
            return false;
        }
    }
    true
}

fn is_mark(byte: u8) -> bool
    ensures { result ≡ is_mark byte }
{
    matches!(
        byte,
        b' ' | b'\t' | b'\r' | b'\n' | b'#' | b'[' | b']' | b'<' | b'>'
    )
}
