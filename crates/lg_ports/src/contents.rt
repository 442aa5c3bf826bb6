//! The contents of a ROM.

ghost use Rattle.std.specs.Prelude.{ℕ, List, ◌≡◌, ◌↔◌, ◌≤◌, length, codes, IsTrue, IfOk, MatchOption};
ghost use Rattle.std.specs.List.{prefix_len};
ghost use Rattle.lg_memory.specs.Form.{IsStoreSize};
ghost use Rattle.lg_ports.specs.Contents.{IsContents, AreContents, HasContents, HasWidths, Then, Marked, Numbered, EndsLine, is_decimal};

use lg_memory::{ImageFault, are_words, read_number, read_words};
use std::alloc::{AllocError, Global};

/// Whether a text is the contents of a ROM with an address and words of these widths.
pub fn is_contents(text: &[u8], address: u32, width: u32) -> bool
    ensures { IsTrue result ↔ IsContents address width text.now }
{
    text.is_empty() || has_contents(text, address, width)
}

/// The words of a text that is the contents of a ROM with an address and words of these widths; the empty text has none.
/// The only error is want of memory.
pub fn contents_of(
    alloc: Global,
    text: &[u8],
    address: u32,
    width: u32,
) -> Result<Vec<u64>, AllocError>
    requires { IsContents address width text.now }
    ensures { IfOk result (λ words. AreContents address width text.now words.items) }
{
    if text.is_empty() {
        return Ok(Vec::new(alloc));
    }
    let Some(rest) = after_widths(text, address, width) else {
        unreachable!()
    };
    match read_words(alloc, rest, width, 1 << address) {
        Ok(words) => Ok(words),
        Err(ImageFault::Memory) => Err(AllocError),
        Err(ImageFault::NotImage) => unreachable!(),
        Err(ImageFault::ImageTooLong) => unreachable!(),
    }
}

fn has_contents(text: &[u8], address: u32, width: u32) -> bool
    ensures { IsTrue result ↔ HasContents address width text.now }
{
    if !is_store_size(address, width) {
        return false;
    }
    match after_widths(text, address, width) {
        Some(rest) => are_words(rest, width, 1 << address),
        None => false,
    }
}

fn is_store_size(address: u32, width: u32) -> bool
    ensures { IsTrue result ↔ IsStoreSize address width }
{
    1 <= address && address <= 24 && 1 <= width && width <= 64
}

// The text behind the first line, if that has these widths.
fn after_widths(text: &[u8], address: u32, width: u32) -> Option<&[u8]>
    requires address { address ≤ 24 }
    requires width { width ≤ 64 }
    ensures { MatchOption result
        ((rest : List ℕ) → HasWidths address width text.now rest → ⊥)
        (λ rest. HasWidths address width text.now rest.now) }
{
    after_both(behind(text, b"addr/data: ")?, address, width)
}

fn after_both(text: &[u8], address: u32, width: u32) -> Option<&[u8]>
    requires address { address ≤ 24 }
    requires width { width ≤ 64 }
    ensures { MatchOption result
        ((rest : List ℕ) → Then (Numbered address) (Then (Marked (codes " ")) (Then (Numbered width) EndsLine)) text.now rest → ⊥)
        (λ rest. Then (Numbered address) (Then (Marked (codes " ")) (Then (Numbered width) EndsLine)) text.now rest.now) }
{
    after_space(after_number(text, address)?, width)
}

fn after_space(text: &[u8], width: u32) -> Option<&[u8]>
    requires { width ≤ 64 }
    ensures { MatchOption result
        ((rest : List ℕ) → Then (Marked (codes " ")) (Then (Numbered width) EndsLine) text.now rest → ⊥)
        (λ rest. Then (Marked (codes " ")) (Then (Numbered width) EndsLine) text.now rest.now) }
{
    after_second(behind(text, b" ")?, width)
}

fn after_second(text: &[u8], width: u32) -> Option<&[u8]>
    requires { width ≤ 64 }
    ensures { MatchOption result
        ((rest : List ℕ) → Then (Numbered width) EndsLine text.now rest → ⊥)
        (λ rest. Then (Numbered width) EndsLine text.now rest.now) }
{
    after_line_end(after_number(text, width)?)
}

// The text behind a mark.
pub fn behind<'a>(text: &'a [u8], mark: &[u8]) -> Option<&'a [u8]>
    ensures { MatchOption result
        ((rest : List ℕ) → Marked mark.now text.now rest → ⊥)
        (λ rest. Marked mark.now text.now rest.now) }
{
    text.strip_prefix(mark)
}

// The text behind a line end.
fn after_line_end(text: &[u8]) -> Option<&[u8]>
    ensures { MatchOption result
        ((rest : List ℕ) → EndsLine text.now rest → ⊥)
        (λ rest. EndsLine text.now rest.now) }
{
    match behind(text, b"\n") {
        Some(rest) => Some(rest),
        None => behind(text, b"\r\n"),
    }
}

// The text behind this number.
fn after_number(text: &[u8], number: u32) -> Option<&[u8]>
    requires { number ≤ 99 }
    ensures { MatchOption result
        ((rest : List ℕ) → Numbered number text.now rest → ⊥)
        (λ rest. Numbered number text.now rest.now) }
{
    let (digits, rest) = text.split_at(digits_len(text));
    match read_number(digits, 10, 99) {
        Some(read) if read == u64::from(number) => Some(rest),
        _ => None,
    }
}

// How many decimal digits a text begins with.
fn digits_len(text: &[u8]) -> usize
    ensures within { result ≤ length text.now }
    ensures digits { result ≡ prefix_len is_decimal text.now }
{
    for (place, byte) in text.iter().enumerate() {
        if !matches!(byte, b'0'..=b'9') {
            return place;
        }
    }
    text.len()
}
