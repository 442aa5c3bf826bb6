//! Circuits of parts, and what is put on their pins.

ghost use Rattle.std.specs.Prelude.{◌≡◌, IfOk};

use crate::{Nets, Words};
use lg_value::Bit;
use std::alloc::{AllocError, Global};
use std::marker::Model;

/// A circuit: its parts, pulled nets, pins and clocks.
#[derive(Drop)]
pub struct Circuit<P> {
    /// The parts.
    pub parts: Vec<P>,
    /// Nets with the bit that they are pulled to.
    pub pulls: Vec<(u32, Bit)>,
    /// The nets of each input pin, but for the clock pin.
    pub pins: Vec<Nets>,
    /// The nets of each output pin.
    pub outputs: Vec<Nets>,
    /// The nets that tick: those of clocks and of the clock pin.
    pub clocks: Nets,
}

/// What is put on the pins from an instant on: a word for each input pin, and one bit for all
/// clocks.
#[derive(Debug, Drop)]
pub struct Stimulus {
    from: u64,
    words: Words,
    clock: Bit,
}

impl Model for Stimulus {
    ghost use Rattle.lg_timing.specs.Circuit.{Stimulus};

    ghost Value = { Stimulus };

    ghost view = { λ s. record { from = s.from; words = s.words; clock = s.clock } };
}

impl Stimulus {
    /// These words and this bit, from an instant on.
    pub fn new(from: u64, words: Words, clock: Bit) -> Stimulus
        ensures { result ≡ record { from = from; words = words; clock = clock } }
    {
        Stimulus { from, words, clock }
    }

    /// A copy of it.
    pub fn copy(&self, alloc: Global) -> Result<Stimulus, AllocError>
        ensures { IfOk result (λ copy. copy ≡ self.now) }
    {
        let words = Words::copy_of(alloc, self.words.words())?;
        Ok(Stimulus::new(self.from, words, self.clock))
    }

    /// From which instant on.
    pub fn from(&self) -> u64
        ensures { result ≡ self.now.from }
    {
        self.from
    }

    /// A word for each input pin.
    pub fn words(&self) -> &Words
        ensures { result.now ≡ self.now.words }
    {
        &self.words
    }

    /// The bit of all clocks.
    pub fn clock(&self) -> Bit
        ensures { result ≡ self.now.clock }
    {
        self.clock
    }
}
