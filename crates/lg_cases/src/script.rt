//! Scripts of cases, line by line. The README says what each line is.

use crate::case::Case;
use std::alloc::Global;
use std::io;

/// Where the lines that are told go.
#[derive(Clone, Copy, PartialEq, Eq)]
enum Target {
    File,
    Out,
    Err,
}

// What was read of a script.
#[derive(Drop)]
struct Script {
    texts: Vec<(String, String)>,
    cases: Vec<Case>,
    target: Target,
}

/// The cases of a script, or the number of the first line that is out of form.
pub fn read_script(alloc: Global, text: &str) -> io::Result<Result<Vec<Case>, usize>> {
    let mut script = Script {
        texts: Vec::new(alloc),
        cases: Vec::new(alloc),
        target: Target::File,
    };
    for (number, line) in text.lines().enumerate() {
        if !script.take(alloc, line)? {
            return Ok(Err(number.saturating_add(1)));
        }
    }
    Ok(Ok(script.cases))
}

impl Script {
    // Takes a line, if it is in form.
    fn take(&mut self, alloc: Global, line: &str) -> io::Result<bool> {
        if line.is_empty() || line.starts_with('#') {
            return Ok(true);
        }
        if let Some(text) = line.strip_prefix('|') {
            return Ok(self.put(text.as_bytes())? && self.put(b"\n".as_slice())?);
        }
        if let Some(text) = line.strip_prefix(':') {
            return self.put(text.as_bytes());
        }
        if let Some(call) = line.strip_prefix('+') {
            return self.put_named(alloc, call);
        }
        let (word, rest) = line.split_once(' ').unwrap_or((line, ""));
        match word {
            "let" => self.name_text(alloc, rest),
            "case" => {
                self.cases.push(Case::new(alloc, rest)?)?;
                Ok(true)
            }
            "times" => self.put_times(rest, ""),
            "lines" => self.put_times(rest, "\n"),
            _ => self.set(alloc, word, rest),
        }
    }

    // Gives a text a name.
    fn name_text(&mut self, alloc: Global, rest: &str) -> io::Result<bool> {
        let Some((name, text)) = rest.split_once(' ') else {
            return Ok(false);
        };
        let named = (
            String::from_str(alloc, name)?,
            String::from_str(alloc, text)?,
        );
        self.texts.push(named)?;
        Ok(true)
    }

    // Sets something of the last case.
    fn set(&mut self, alloc: Global, word: &str, rest: &str) -> io::Result<bool> {
        let Some(case) = self.cases.last_mut() else {
            return Ok(false);
        };
        match word {
            "words" => case.words = words_of(alloc, rest)?,
            "text" => {
                let content = Vec::from_slice(alloc, rest.as_bytes())?;
                case.files
                    .push((String::from_str(alloc, "p.circ")?, content))?;
            }
            "file" => {
                case.files
                    .push((String::from_str(alloc, rest)?, Vec::new(alloc)))?;
                self.target = Target::File;
            }
            "out" => self.target = Target::Out,
            "err" => self.target = Target::Err,
            "usage" => case.stops(alloc, 2, "usage: lg VERB [OPTIONS] ARGUMENTS", "")?,
            "input" => case.stops(alloc, 3, "input: p.circ: ", rest)?,
            "refused" => case.stops(alloc, 4, "not accepted: ", rest)?,
            _ => return set_number(case, word, rest),
        }
        Ok(true)
    }

    // Adds bytes to what is being told.
    fn put(&mut self, bytes: &[u8]) -> io::Result<bool> {
        let Some(case) = self.cases.last_mut() else {
            return Ok(false);
        };
        match self.target {
            Target::File => {
                let Some((_, content)) = case.files.last_mut() else {
                    return Ok(false);
                };
                content.extend_from_slice(bytes)?;
            }
            Target::Out => case.out.extend_from_slice(bytes)?,
            Target::Err => case.err.extend_from_slice(bytes)?,
        }
        Ok(true)
    }

    // Adds a text, with an end behind it, as often as the number before it says.
    fn put_times(&mut self, rest: &str, end: &str) -> io::Result<bool> {
        let Some((times, text)) = rest.split_once(' ') else {
            return Ok(false);
        };
        let Ok(times) = times.parse::<u32>() else {
            return Ok(false);
        };
        for _ in 0..times {
            if !self.put(text.as_bytes())? || !self.put(end.as_bytes())? {
                return Ok(false);
            }
        }
        Ok(true)
    }

    // Adds a named text, with what stands behind the name in the place of its `$1`, `$2`, ..
    fn put_named(&mut self, alloc: Global, call: &str) -> io::Result<bool> {
        let (name, rest) = call.split_once(' ').unwrap_or((call, ""));
        let Some(text) = filled(alloc, &self.texts, name, rest)? else {
            return Ok(false);
        };
        self.put(text.as_bytes())
    }
}

// The text of a name, filled; none where there is no such name.
fn filled(
    alloc: Global,
    texts: &[(String, String)],
    name: &str,
    rest: &str,
) -> io::Result<Option<String>> {
    let Some((_, text)) = texts.iter().find(|named| named.0.as_str() == name) else {
        return Ok(None);
    };
    let mut filled = String::from_str(alloc, text.as_str())?;
    for (mark, word) in ["$1", "$2", "$3", "$4"].iter().zip(rest.split(' ')) {
        filled = filled.replace(alloc, *mark, word)?;
    }
    Ok(Some(filled))
}

fn set_number(case: &mut Case, word: &str, rest: &str) -> io::Result<bool> {
    let Ok(number) = rest.parse::<u64>() else {
        return Ok(false);
    };
    match word {
        "status" => case.status = u8::try_from(number).unwrap_or(u8::MAX),
        "piece" => case.piece = usize::try_from(number).unwrap_or(usize::MAX),
        "failing_read" => case.failing_reads.push(number)?,
        "failing_write" => case.failing_writes.push(number)?,
        _ => return Ok(false),
    }
    Ok(true)
}

// Words between single spaces; `''` is an empty one.
fn words_of(alloc: Global, rest: &str) -> io::Result<Vec<String>> {
    let mut words = Vec::new(alloc);
    if rest.is_empty() {
        return Ok(words);
    }
    for word in rest.split(' ') {
        let word = if word == "''" { "" } else { word };
        words.push(String::from_str(alloc, word)?)?;
    }
    Ok(words)
}
