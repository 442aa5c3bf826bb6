//! Runs of words: `V` and `N*V`.

ghost use Rattle.std.specs.Prelude.{◌≡◌, ◌+◌, ◌==◌, MatchOption};
ghost use Rattle.std.specs.List.{position};
ghost use Rattle.lg_memory.specs.declared.run.Run.{Run as Words};
ghost use Rattle.lg_memory.specs.Image.{IsRun};

use crate::number::read_number;

// The greatest number of words in a run.
const MOST_TIMES: u64 = 1_048_576;

// So many words of one value.
#[derive(Clone, Copy, Debug, PartialEq, Eq)]
pub struct Run {
    pub count: u32,
    pub value: u64,
}

// The run that a text is, if its value is at most `most`.
pub fn read_run(text: &[u8], most: u64) -> Option<Run>
    ensures { MatchOption result
        ((run : Words) → IsRun (most + 1) text.now run → ⊥)
        (λ run. IsRun (most + 1) text.now run) }
{
    match star_place(text) {
        None => {
            let value = read_number(text, 16, most)?;
            Some(Run { count: 1, value })
        }
        Some(star) => {
            let count = read_number(&text[..star], 10, MOST_TIMES)?;
            if count == 0 {
                return None;
            }
            let value = read_number(&text[star + 1..], 16, most)?;
            Some(Run {
                count: count as u32,
                value,
            })
        }
    }
}

fn star_place(text: &[u8]) -> Option<usize>
    ensures { result ≡ position (λ c. c == 42) text.now }
{
    text.iter().position(|byte| *byte == b'*')
}
