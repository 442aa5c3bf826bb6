//! Lines of scripts. The README says what they mean.

use crate::text::word_of;
use lg_value::Word;
use std::alloc::Global;
use std::io;

/// How often a word stands in a line at most.
const MOST_TIMES: usize = 64;

/// A call by its name, with the numbers and the words that it is given.
#[derive(Drop)]
pub struct Call {
    pub name: String,
    pub numbers: Vec<u32>,
    /// The words, none where nothing is attached.
    pub inputs: Vec<Option<Word>>,
    /// The words alone.
    pub words: Vec<Word>,
}

/// The call of a line, and the words that it must answer; none where the line is out of form.
pub fn read_case(alloc: Global, line: &str) -> io::Result<Option<(Call, Vec<Word>)>> {
    let Some((left, right)) = line.split_once(" = ") else {
        return Ok(None);
    };
    let Some(want) = read_words(alloc, right)? else {
        return Ok(None);
    };
    let Some(call) = read_call(alloc, left)? else {
        return Ok(None);
    };
    Ok(Some((call, want)))
}

fn read_call(alloc: Global, text: &str) -> io::Result<Option<Call>> {
    let (head, rest) = text.split_once(' ').unwrap_or((text, ""));
    let (name, numbers) = head.split_once('/').unwrap_or((head, ""));
    let Some(numbers) = read_numbers(alloc, numbers)? else {
        return Ok(None);
    };
    let Some(inputs) = read_inputs(alloc, rest)? else {
        return Ok(None);
    };
    let mut words = Vec::new(alloc);
    for word in inputs.iter().flatten() {
        words.push(*word)?;
    }
    Ok(Some(Call {
        name: String::from_str(alloc, name)?,
        numbers,
        inputs,
        words,
    }))
}

// Numbers with a `/` between two.
fn read_numbers(alloc: Global, text: &str) -> io::Result<Option<Vec<u32>>> {
    let mut numbers = Vec::new(alloc);
    for number in text.split('/') {
        if number.is_empty() {
            continue;
        }
        match number.parse::<u32>() {
            Ok(number) => numbers.push(number)?,
            Err(_) => return Ok(None),
        }
    }
    Ok(Some(numbers))
}

// Words with a space between two; `-` stands where nothing is attached, and `3@1` for three words `1`.
fn read_inputs(alloc: Global, text: &str) -> io::Result<Option<Vec<Option<Word>>>> {
    let mut inputs = Vec::new(alloc);
    for token in text.split(' ') {
        let (times, word) = token.split_once('@').unwrap_or(("1", token));
        let times = times.parse::<usize>().unwrap_or(0).min(MOST_TIMES);
        if word == "-" {
            inputs.push(None)?;
        } else if let Some(word) = word_of(word) {
            for _ in 0..times {
                inputs.push(Some(word))?;
            }
        } else if !word.is_empty() {
            return Ok(None);
        }
    }
    Ok(Some(inputs))
}

fn read_words(alloc: Global, text: &str) -> io::Result<Option<Vec<Word>>> {
    let mut words = Vec::new(alloc);
    for token in text.split(' ') {
        match word_of(token) {
            Some(word) => words.push(word)?,
            None => return Ok(None),
        }
    }
    Ok(Some(words))
}
