//! Memory images.

ghost use Rattle.std.specs.Prelude.{ℕ, List, ◌≡◌, ◌+◌, ◌^◌, ◌<◌, ◌≤◌, ◌++◌, ◌⊎◌, length, replicate, MatchOption, MatchResult, IfOk, IsErrOf, IsTrue, ◌↔◌};
ghost use Rattle.lg_value.specs.Word.{IsWidth};
ghost use Rattle.lg_memory.specs.declared.fault.ImageFault.TheVariants.{NotImage, ImageTooLong, Memory as NoMemory};
ghost use Rattle.lg_memory.specs.Image.{IsImage, HasHeader, HasWords};
ghost use Rattle.lg_memory.specs.Scan.{Keeps};

use crate::fault::ImageFault;
use crate::run::{Run, read_run};
use crate::scan::{skip_gap, word_len};
use std::alloc::{AllocError, Global};

/// The words of a memory image, each of `width` bits, without the missing ones. The width is 1 to 64.
///
/// The image is the line `v2.0 raw` and then words in hexadecimal digits, with white space between them; `N*V` is the
/// word `V` N times, and `#` begins a comment that ends with its line. There may be at most `words` words; those past
/// that are read and not kept.
pub fn read_image(
    alloc: Global,
    bytes: &[u8],
    width: u32,
    words: u32,
) -> Result<Vec<u64>, ImageFault>
    requires { IsWidth width }
    ensures found { IfOk result (λ read. IsImage width bytes.now read.items × (length read.items ≤ words)) }
    // An image is read as its words, unless there are too many or memory runs out.
    // So where words are given, no other list is the image's.
    ensures only { (all : List ℕ) → IsImage width bytes.now all
        → MatchResult result
        (λ read. read.items ≡ all)
        (λ e. (e ≡ NoMemory) ⊎ ((e ≡ ImageTooLong) × (words < length all))) }
    ensures not_image { IsErrOf result NotImage → (all : List ℕ) → IsImage width bytes.now all → ⊥ }
    ensures too_long { IsErrOf result ImageTooLong
        → (all : List ℕ) × IsImage width bytes.now all × (words < length all) }
{
    match after_header(bytes) {
        Some(text) => read_words(alloc, text, width, words),
        None => Err(ImageFault::NotImage),
    }
}

/// The words that a text is, as they stand behind the first line of a memory image, each of `width` bits. The width is 1
/// to 64. There may be at most `words` words; those past that are read and not kept.
pub fn read_words(
    alloc: Global,
    text: &[u8],
    width: u32,
    words: u32,
) -> Result<Vec<u64>, ImageFault>
    requires { IsWidth width }
    ensures found { IfOk result (λ read. HasWords (2 ^ width) text.now read.items × (length read.items ≤ words)) }
    ensures only { (all : List ℕ) → HasWords (2 ^ width) text.now all
        → MatchResult result
        (λ read. read.items ≡ all)
        (λ e. (e ≡ NoMemory) ⊎ ((e ≡ ImageTooLong) × (words < length all))) }
    ensures not_image { IsErrOf result NotImage → (all : List ℕ) → HasWords (2 ^ width) text.now all → ⊥ }
    ensures too_long { IsErrOf result ImageTooLong
        → (all : List ℕ) × HasWords (2 ^ width) text.now all × (words < length all) }
{
    bounded_words(alloc, text, greatest(width), words as usize)
}

/// Whether a text is words as they stand behind the first line of a memory image, each of `width` bits and at most `words`
/// of them. The width is 1 to 64. No word is kept.
pub fn are_words(text: &[u8], width: u32, words: u32) -> bool
    requires { IsWidth width }
    ensures { IsTrue result ↔ ((all : List ℕ) × HasWords (2 ^ width) text.now all × (length all ≤ words)) }
{
    count_within(text, greatest(width), words)
}

// Whether a text is words, each at most `most`, and at most `limit` of them.
fn count_within(text: &[u8], most: u64, limit: u32) -> bool
    ensures { IsTrue result ↔ ((all : List ℕ) × HasWords (most + 1) text.now all × (length all ≤ limit)) }
{
    let mut count: u64 = 0;
    let mut rest = skip_gap(text);
    while !rest.is_empty() {
        let (word, after) = rest.split_at(word_len(rest));
        let Some(run) = read_run(word, most) else {
            return false;
        };
        count += u64::from(run.count);
        if count > u64::from(limit) {
            return false;
        }
        rest = skip_gap(after);
    }
    true
}

// The greatest number of a width.
fn greatest(width: u32) -> u64
    requires { IsWidth width }
    ensures { result + 1 ≡ 2 ^ width }
{
    u64::MAX >> (64 - width)
}

// The text behind the first line of an image.
fn after_header(bytes: &[u8]) -> Option<&[u8]>
    ensures { MatchOption result
        ((text : List ℕ) → HasHeader bytes.now text → ⊥)
        (λ text. HasHeader bytes.now text.now) }
{
    match bytes.strip_prefix(b"v2.0 raw\n") {
        Some(text) => Some(text),
        None => bytes.strip_prefix(b"v2.0 raw\r\n"),
    }
}

// The words of a text, each at most `most`, if they are at most `limit`.
fn bounded_words(
    alloc: Global,
    text: &[u8],
    most: u64,
    limit: usize,
) -> Result<Vec<u64>, ImageFault>
    ensures found { IfOk result (λ read. HasWords (most + 1) text.now read.items × (length read.items ≤ limit)) }
    ensures only { (all : List ℕ) → HasWords (most + 1) text.now all
        → MatchResult result
        (λ read. read.items ≡ all)
        (λ e. (e ≡ NoMemory) ⊎ ((e ≡ ImageTooLong) × (limit < length all))) }
    ensures not_image { IsErrOf result NotImage → (all : List ℕ) → HasWords (most + 1) text.now all → ⊥ }
    ensures too_long { IsErrOf result ImageTooLong
        → (all : List ℕ) × HasWords (most + 1) text.now all × (limit < length all) }
{
    let mut kept = Vec::new(alloc);
    let mut over = false;
    let mut rest = skip_gap(text);
    while !rest.is_empty() {
        let (word, after) = rest.split_at(word_len(rest));
        let Some(run) = read_run(word, most) else {
            return Err(ImageFault::NotImage);
        };
        over = keep(&mut kept, over, run, limit)?;
        rest = skip_gap(after);
    }
    if over {
        Err(ImageFault::ImageTooLong)
    } else {
        Ok(kept)
    }
}

// Keeps the words of a run beside those that are kept already, unless they are too many: then `true` stands for all.
fn keep(kept: &mut Vec<u64>, over: bool, run: Run, limit: usize) -> Result<bool, AllocError>
    ensures { IfOk result (λ after. (words : List ℕ) → Keeps limit kept.old.items over words
        → Keeps limit kept.new.items after (words ++ replicate run.count run.value)) }
{
    if over || kept.len() + run.count as usize > limit {
        return Ok(true);
    }
    for _ in 0..run.count {
        kept.push(run.value)?;
    }
    Ok(false)
}
