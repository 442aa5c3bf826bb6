//! A finite set of numbers.

ghost use Rattle.std.specs.Prelude.{◌≡◌, ◌≢◌, ◌<◌, ◌≤◌, ◌∷◌, [], IfOk, IsTrue, ◌↔◌};
ghost use Rattle.lg_queue.specs.NumberSet.{with_number};

use crate::levels::{Levels, empty, insert, is_empty, least, remove};
use std::alloc::{AllocError, Global};
use std::marker::Model;

/// A set of numbers below a bound, which is at most 1,048,576. In a contract it is the list of its numbers, which
/// rise, and the room that it has.
#[derive(Drop)]
pub(crate) struct Numbers {
    levels: Levels,
}

impl Model for Numbers {
    ghost use Rattle.lg_queue.specs.NumberSet.{NumberSet, numbers_of};
    ghost use Rattle.lg_queue.specs.Levels.{AreLevels};

    ghost Value = { NumberSet };

    ghost view = { λ s. numbers_of s.levels.numbers.items };

    ghost invariant = { λ s. AreLevels s.levels };
}

impl Numbers {
    /// The empty set, with room for the numbers below a bound. The only error is want of memory.
    pub(crate) fn new(alloc: Global, bound: u32) -> Result<Numbers, AllocError>
        requires { bound ≤ 1048576 }
        ensures none { IfOk result (λ set. set.numbers ≡ []) }
        ensures room { IfOk result (λ set. bound ≤ set.room) }
    {
        let levels = empty(alloc, bound)?;
        Ok(Numbers { levels })
    }

    /// Whether there is no number.
    pub(crate) fn is_empty(&self) -> bool
        ensures { IsTrue result ↔ (self.now.numbers ≡ []) }
    {
        is_empty(&self.levels)
    }

    /// Puts a number in.
    pub(crate) fn insert(&mut self, number: usize)
        requires { number < self.old.room }
        ensures { self.new ≡ with_number number self.old }
    {
        insert(&mut self.levels, number);
    }

    /// Takes the least number out. There is one.
    pub(crate) fn take_least(&mut self) -> usize
        requires { self.old.numbers ≢ [] }
        ensures numbers { self.old.numbers ≡ result ∷ self.new.numbers }
        ensures room { self.new.room ≡ self.old.room }
    {
        let number = least(&self.levels);
        remove(&mut self.levels, number);
        number
    }
}
