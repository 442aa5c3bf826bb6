//! Rows of bits above one another: each bit tells whether a word of the row below is not zero, so that the least number
//! is found in as many steps as there are rows.

ghost use Rattle.std.specs.Prelude.{ℕ, ◌*◌, ◌<◌, ◌≤◌, length, IfOk};
ghost use Rattle.std.specs.Bool.{MatchBool};
ghost use Rattle.lg_queue.specs.Row.{Has, HasAdded, HasTaken, HasNone, IsLeast};
ghost use Rattle.lg_queue.specs.Levels.{AreLevels};

use crate::row::{add, is_none_in, least_in, take};
use std::alloc::{AllocError, Global};

/// Numbers below a bound, which is at most 1,048,576.
#[derive(Drop)]
pub(crate) struct Levels {
    // a bit for each number
    pub(crate) numbers: Vec<u64>,
    // a bit for each word of `numbers`
    pub(crate) words: Vec<u64>,
    // a bit for each word of `words`
    pub(crate) blocks: Vec<u64>,
    // a bit for each word of `blocks`
    pub(crate) top: [u64; 1],
}

// Levels without a number, with room for those below a bound.
pub(crate) fn empty(alloc: Global, bound: u32) -> Result<Levels, AllocError>
    requires { bound ≤ 1048576 }
    ensures levels { IfOk result AreLevels }
    ensures none { IfOk result (λ s. HasNone s.numbers.items) }
    ensures room { IfOk result (λ s. bound ≤ 64 * length s.numbers.items) }
{
    let numbers = bound as usize / 64 + 1;
    let words = numbers / 64 + 1;
    let blocks = words / 64 + 1;
    Ok(Levels {
        numbers: vec![in alloc; 0; numbers]?,
        words: vec![in alloc; 0; words]?,
        blocks: vec![in alloc; 0; blocks]?,
        top: [0],
    })
}

// Whether there is no number.
pub(crate) fn is_empty(levels: &Levels) -> bool
    requires { AreLevels levels.now }
    ensures { MatchBool result (HasNone levels.now.numbers.items) ((number : ℕ) × Has levels.now.numbers.items number) }
{
    is_none_in(&levels.top, 0)
}

// The least number, where there is one.
pub(crate) fn least(levels: &Levels) -> usize
    requires levels { AreLevels levels.now }
    requires some { (number : ℕ) × Has levels.now.numbers.items number }
    ensures { IsLeast levels.now.numbers.items result }
{
    let block = least_in(&levels.top, 0);
    let word = least_in(&levels.blocks, block);
    let place = least_in(&levels.words, word);
    least_in(&levels.numbers, place)
}

// Puts a number in.
pub(crate) fn insert(levels: &mut Levels, number: usize)
    requires levels { AreLevels levels.old }
    requires room { number < 64 * length levels.old.numbers.items }
    ensures levels { AreLevels levels.new }
    ensures added { HasAdded number levels.old.numbers.items levels.new.numbers.items }
{
    add(&mut levels.numbers, number);
    add(&mut levels.words, number / 64);
    add(&mut levels.blocks, number / 64 / 64);
    add(&mut levels.top, number / 64 / 64 / 64);
}

// Takes a number out that is there.
pub(crate) fn remove(levels: &mut Levels, number: usize)
    requires levels { AreLevels levels.old }
    requires there { Has levels.old.numbers.items number }
    ensures levels { AreLevels levels.new }
    ensures taken { HasTaken number levels.old.numbers.items levels.new.numbers.items }
{
    let word = number / 64;
    let block = word / 64;
    take(&mut levels.numbers, number);
    if !is_none_in(&levels.numbers, word) {
        return;
    }
    take(&mut levels.words, word);
    if !is_none_in(&levels.words, block) {
        return;
    }
    take(&mut levels.blocks, block);
    if !is_none_in(&levels.blocks, block / 64) {
        return;
    }
    take(&mut levels.top, block / 64);
}
