//! What a call answers: one word or more.

use crate::text::text_of;
use lg_value::Word;
use std::alloc::Global;
use std::io;

/// The words that a call answers.
#[derive(Clone, Copy)]
pub enum Answer {
    One(Word),
    Two(Word, Word),
    Three(Word, Word, Word),
}

impl Answer {
    /// Whether the answer is these words.
    pub fn is(&self, want: &[Word]) -> bool {
        match (self, want) {
            (Answer::One(a), [first]) => a == first,
            (Answer::Two(a, b), [first, second]) => a == first && b == second,
            (Answer::Three(a, b, c), [first, second, third]) => {
                a == first && b == second && c == third
            }
            _ => false,
        }
    }

    /// The words as a script has them.
    pub fn text(&self, alloc: Global) -> io::Result<String> {
        let mut text = String::new(alloc);
        match self {
            Answer::One(a) => text.push_str(text_of(alloc, a)?.as_str())?,
            Answer::Two(a, b) => {
                text.push_str(text_of(alloc, a)?.as_str())?;
                text.push_str(" ")?;
                text.push_str(text_of(alloc, b)?.as_str())?;
            }
            Answer::Three(a, b, c) => {
                text.push_str(text_of(alloc, a)?.as_str())?;
                text.push_str(" ")?;
                text.push_str(text_of(alloc, b)?.as_str())?;
                text.push_str(" ")?;
                text.push_str(text_of(alloc, c)?.as_str())?;
            }
        }
        Ok(text)
    }
}
