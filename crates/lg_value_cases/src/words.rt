//! Calls of `lg_value`.

use crate::answer::Answer::{self, One, Three, Two};
use crate::bits::{counted, one, only_bit, tested};
use crate::call::Call;
use lg_value::{Bit, Word, join_bits};

/// What a call answers, if it is one of these in form.
pub fn answer(call: &Call) -> Option<Answer> {
    match call.words.as_slice() {
        [a] => answer_of_one(call.name.as_str(), &call.numbers, a),
        [a, b] => answer_of_two(call.name.as_str(), &call.numbers, a, b),
        _ => None,
    }
}

fn answer_of_one(name: &str, numbers: &[u32], a: &Word) -> Option<Answer> {
    match (name, numbers) {
        ("turned", []) => Some(One(a.map(turned))),
        ("ones", []) => Some(One(counted(u64::from(a.ones())))),
        ("defined", []) => Some(One(tested(a.defined()))),
        ("number", []) => number_of(a),
        ("bit", [place]) => bit_at(a, *place),
        ("cut", [low, width]) => part_of(a, *low, *width),
        _ => None,
    }
}

fn answer_of_two(name: &str, numbers: &[u32], a: &Word, b: &Word) -> Option<Answer> {
    match (name, numbers) {
        ("join_bits", []) => Some(One(one(join_bits(only_bit(a)?, only_bit(b)?)))),
        ("join", []) if a.width() == b.width() => Some(One(a.join(b))),
        ("and_or_xor", []) if a.width() == b.width() => Some(Three(a.and(b), a.or(b), a.xor(b))),
        ("glue", []) if a.width() + b.width() <= 64 => Some(One(a.glue(b))),
        ("equal", []) => Some(One(tested(*a == *b))),
        ("with_bit", [place]) if *place < a.width() => {
            Some(One(a.with_bit(*place, only_bit(b)?)))
        }
        _ => None,
    }
}

fn turned(bit: Bit) -> Bit {
    match bit {
        Bit::Zero => Bit::Error,
        Bit::One => Bit::Unknown,
        Bit::Unknown => Bit::One,
        Bit::Error => Bit::Zero,
    }
}

// The width and the number of a word that is defined.
fn number_of(word: &Word) -> Option<Answer> {
    if word.defined() {
        Some(Two(counted(u64::from(word.width())), counted(word.number())))
    } else {
        None
    }
}

fn bit_at(word: &Word, place: u32) -> Option<Answer> {
    if place < word.width() {
        Some(One(one(word.bit(place))))
    } else {
        None
    }
}

fn part_of(word: &Word, low: u32, width: u32) -> Option<Answer> {
    if low <= word.width() && 1 <= width && width <= word.width() - low {
        Some(One(word.cut(low, width)))
    } else {
        None
    }
}
