//! Calls of plexers, of `lg_gates`.

ghost use Rattle.std.specs.Prelude.{◌≡◌, length};

use crate::answer::Answer::{self, One, Three};
use crate::bits::{one, only_bit};
use crate::call::Call;
use lg_gates::{enabled, pick, priority, select_group, spread};
use lg_value::{Bit, Word};

/// What a call answers, if it is one of these in form.
pub fn answer(call: &Call) -> Option<Answer> {
    let name = call.name.as_str();
    match (call.words.as_slice(), call.numbers.as_slice()) {
        ([enable, off, word], []) if name == "enabled" => {
            Some(One(enabled(only_bit(enable)?, word, only_bit(off)?)))
        }
        ([enable, off, select, low, high], []) if name == "multiplexer" => {
            let picked = pick_of_two(only_bit(select)?, low, high)?;
            Some(One(enabled(only_bit(enable)?, &picked, only_bit(off)?)))
        }
        ([off, select, data], [place]) if name == "spread" => {
            Some(One(spread(select, data, *place, only_bit(off)?)))
        }
        ([data, select], [group]) if name == "group" => group_of(data, select, *group),
        ([enable, off, inputs], [select]) if name == "priority" => {
            greatest(inputs, only_bit(enable)?, *select, only_bit(off)?)
        }
        _ => None,
    }
}

// What a multiplexer of two items answers.
fn pick_of_two(select: Bit, low: &Word, high: &Word) -> Option<Word> {
    if low.width() == high.width() {
        Some(pick(&Word::fill(1, select), &[*low, *high]))
    } else {
        None
    }
}

fn group_of(data: &Word, select: &Word, group: u32) -> Option<Answer> {
    if 1 <= group && group <= 64 {
        Some(One(select_group(data, select, group)))
    } else {
        None
    }
}

// A priority encoder of two or four inputs, given as a word whose highest bit is input 0.
fn greatest(inputs: &Word, enable: Bit, select: u32, off: Bit) -> Option<Answer> {
    let (address, any, none) = if select == 1 && inputs.width() == 2 {
        priority(&[inputs.bit(1), inputs.bit(0)], enable, 1, off)
    } else if select == 2 && inputs.width() == 4 {
        let bits = [inputs.bit(3), inputs.bit(2), inputs.bit(1), inputs.bit(0)];
        priority(&bits, enable, 2, off)
    } else {
        return None;
    };
    Some(Three(address, one(any), one(none)))
}
