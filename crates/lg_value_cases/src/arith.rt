//! Calls of `lg_arith`.

use crate::answer::Answer::{self, One, Three, Two};
use crate::bits::{one, only_bit};
use crate::call::Call;
use lg_arith::{Extend, ShiftKind, add, compare, count_ones, div, extend, mul, negate, shift, sub};
use lg_value::{Bit, Word};

/// What a call answers, if it is one of these in form.
pub fn answer(call: &Call) -> Option<Answer> {
    let name = call.name.as_str();
    if name == "count_ones" {
        return counted(&call.words);
    }
    match call.words.as_slice() {
        [a] if name == "negate" => Some(One(negate(a))),
        [a] => extended(name, a, *call.numbers.first()?),
        [a, b] => compared(name, a, b).or(shifted(name, a, b)),
        [a, b, c] => sum(name, a, b, c).or(product(name, a, b, c)),
        _ => None,
    }
}

fn counted(words: &[Word]) -> Option<Answer> {
    if 1 <= words.len() && words.len() <= 64 {
        Some(One(count_ones(words)))
    } else {
        None
    }
}

// A sum with its carry, or a difference with its borrow.
fn sum(name: &str, a: &Word, b: &Word, third: &Word) -> Option<Answer> {
    let third = only_bit(third)?;
    if a.width() != b.width() {
        return None;
    }
    let (word, bit) = match name {
        "add" => add(a, b, third),
        "sub" => sub(a, b, third),
        _ => return None,
    };
    Some(Two(word, one(bit)))
}

// A product's two halves, or a quotient and its remainder.
fn product(name: &str, a: &Word, b: &Word, third: &Word) -> Option<Answer> {
    if a.width() != b.width() || a.width() != third.width() {
        return None;
    }
    let (first, second) = match name {
        "mul" => mul(a, b, third),
        "div" => div(a, b, third),
        _ => return None,
    };
    Some(Two(first, second))
}

fn compared(name: &str, a: &Word, b: &Word) -> Option<Answer> {
    if a.width() != b.width() {
        return None;
    }
    let (greater, equal, less) = match name {
        "compare" => compare(a, b, false),
        "compare_signed" => compare(a, b, true),
        _ => return None,
    };
    Some(Three(one(greater), one(equal), one(less)))
}

fn shifted(name: &str, a: &Word, distance: &Word) -> Option<Answer> {
    let kind = match name {
        "shift_left" => ShiftKind::Left,
        "shift_right" => ShiftKind::Right,
        "shift_arith" => ShiftKind::Arith,
        "roll_left" => ShiftKind::RollLeft,
        "roll_right" => ShiftKind::RollRight,
        _ => return None,
    };
    Some(One(shift(kind, a, distance)))
}

fn extended(name: &str, word: &Word, width: u32) -> Option<Answer> {
    let how = match name {
        "extend_zero" => Extend::Zero,
        "extend_one" => Extend::One,
        "extend_sign" => Extend::Sign,
        "extend_by_0" => Extend::Input(Bit::Zero),
        "extend_by_1" => Extend::Input(Bit::One),
        "extend_by_E" => Extend::Input(Bit::Error),
        _ => return None,
    };
    if 1 <= width && width <= 64 {
        Some(One(extend(word, width, how)))
    } else {
        None
    }
}
