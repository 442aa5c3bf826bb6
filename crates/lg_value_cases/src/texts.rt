//! Calls on texts: memory images and vectors. What they answer is told as a text.

use crate::vectors;
use lg_memory::{ImageFault, read_image, read_number};
use std::alloc::Global;
use std::io;

/// What a call on a text answers; none where it is out of form.
pub fn told(alloc: Global, call: &str) -> io::Result<Option<String>> {
    let (head, text) = call.split_once(' ').unwrap_or((call, ""));
    let (name, numbers) = head.split_once('/').unwrap_or((head, ""));
    let Some(bytes) = unescaped(alloc, text)? else {
        return Ok(None);
    };
    match name {
        "image" => image(alloc, numbers, &bytes),
        _ => vectors::told(alloc, name, numbers, &bytes),
    }
}

// The words of a memory image of words of a width, and of so many words at most.
fn image(alloc: Global, numbers: &str, bytes: &[u8]) -> io::Result<Option<String>> {
    let (width, words) = numbers.split_once('/').unwrap_or((numbers, ""));
    let (Ok(width), Ok(words)) = (width.parse::<u32>(), words.parse::<u32>()) else {
        return Ok(None);
    };
    if width < 1 || 64 < width {
        return Ok(None);
    }
    let mut told = String::new(alloc);
    match read_image(alloc, bytes, width, words) {
        Ok(read) => {
            for word in &read {
                let word = format!(in alloc; "{word} ")?;
                told.push_str(word.as_str())?;
            }
            told.push_str("end")?;
        }
        Err(ImageFault::NotImage) => told.push_str("NotImage")?,
        Err(ImageFault::ImageTooLong) => told.push_str("ImageTooLong")?,
        Err(_) => told.push_str("Memory")?,
    }
    Ok(Some(told))
}

// The bytes of a text in which `\n`, `\r`, `\t` and `\xff` stand for bytes.
fn unescaped(alloc: Global, text: &str) -> io::Result<Option<Vec<u8>>> {
    let mut pieces = text.split('\\');
    let mut bytes = Vec::from_slice(alloc, pieces.next().unwrap_or("").as_bytes())?;
    for piece in pieces {
        let (byte, rest) = match piece.as_bytes() {
            [b'n', rest @ ..] => (b'\n', rest),
            [b'r', rest @ ..] => (b'\r', rest),
            [b't', rest @ ..] => (b'\t', rest),
            [b'x', high, low, rest @ ..] => match read_number(&[*high, *low], 16, 255) {
                Some(byte) => (u8::try_from(byte).unwrap_or(0), rest),
                None => return Ok(None),
            },
            _ => return Ok(None),
        };
        bytes.push(byte)?;
        bytes.extend_from_slice(rest)?;
    }
    Ok(Some(bytes))
}
