//! Expressions that are ready to be computed: names are indexes, and widths are known.

ghost use Rattle.std.specs.Prelude.{◌≡◌, [], slice_index_or};
ghost use Rattle.lg_vmachine.specs.Terms.{term_number};

use crate::arithmetic::{complement, cut, operate, shift_left, shift_right};
use lg_vtree::Operator;
use sqlite_items::{Boxed, Items};

/// An expression over a list of numbers and a list of memories.
#[derive(Debug, Drop)]
pub enum Term {
    Const(u128),
    /// The number at an index.
    Number(usize),
    /// So many bits, from the lowest of them on, of the number at an index.
    Part {
        index: usize,
        low: u128,
        width: u128,
    },
    /// A word of the memory at an index.
    Item(usize, Boxed<Term>),
    /// The first above the second, which has this width.
    Join(Boxed<Term>, u128, Boxed<Term>),
    /// The complement in a width.
    Not(u128, Boxed<Term>),
    /// An operation in a width.
    Binary(u128, Boxed<Term>, Operator, Boxed<Term>),
    /// The second where the first is not 0, else the third.
    Choice(Boxed<Term>, Boxed<Term>, Boxed<Term>),
}

impl Term {
    /// Its number. What is past the end of a list counts as 0.
    #[cycle(number)]
    pub fn number(&self, numbers: &[u128], memories: &[Items<u128>]) -> u128
        ensures { result ≡ term_number numbers.now memories.now self.now }
    {
        match self {
            Term::Const(value) => *value,
            Term::Number(index) => number_at(numbers, *index),
            Term::Part { index, low, width } => {
                cut(*width, shift_right(number_at(numbers, *index), *low))
            }
            Term::Item(memory, address) => {
                word_at(memories, *memory, address.get().number(numbers, memories))
            }
            Term::Join(high, width, low) => {
                let high = shift_left(high.get().number(numbers, memories), *width);
                high.wrapping_add(low.get().number(numbers, memories))
            }
            Term::Not(width, inner) => complement(*width, inner.get().number(numbers, memories)),
            Term::Binary(width, left, operator, right) => operate(
                *operator,
                *width,
                left.get().number(numbers, memories),
                right.get().number(numbers, memories),
            ),
            Term::Choice(condition, first, second) => {
                if condition.get().number(numbers, memories) == 0 {
                    second.get().number(numbers, memories)
                } else {
                    first.get().number(numbers, memories)
                }
            }
        }
    }
}

fn number_at(numbers: &[u128], index: usize) -> u128
    ensures { result ≡ slice_index_or numbers.now index 0 }
{
    numbers.get(index).copied().unwrap_or(0)
}

fn word_at(memories: &[Items<u128>], memory: usize, address: u128) -> u128
    ensures { result ≡ slice_index_or (slice_index_or memories.now memory []) address 0 }
{
    let Some(words) = memories.get(memory) else {
        return 0;
    };
    let words = words.as_slice();
    match usize::try_from(address) {
        Ok(address) => number_at(words, address),
        Err(_) => 0,
    }
}
