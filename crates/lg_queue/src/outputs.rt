//! Numbers for the outputs of parts.

ghost use Rattle.std.specs.Prelude.{◌≡◌, ◌<◌, ◌≤◌, sum, IfOk};
ghost use Rattle.lg_queue.specs.Numbering.{IsOutput, number_of, place_of};

use std::alloc::{AllocError, Global};
use std::marker::Model;

/// The outputs of parts, numbered one part after another. In a contract it is the list of each part's number of outputs.
#[derive(Drop)]
pub(crate) struct Outputs {
    // how many outputs each part has
    counts: Vec<u32>,
    // the number of each part's first output
    firsts: Vec<u32>,
    // the part and the output of each number
    places: Vec<(usize, u32)>,
}

impl Model for Outputs {
    ghost use Rattle.std.specs.Prelude.{ℕ, List};

    ghost Value = { List ℕ };

    ghost use Rattle.lg_queue.specs.Numbering.{IsNumbering};

    ghost view = { λ s. s.counts.items };

    ghost invariant = { IsNumbering };
}

impl Outputs {
    /// Numbers for the outputs of parts, of which there are so many each. The only error is want of memory.
    pub(crate) fn new(alloc: Global, counts: &[u32]) -> Result<Outputs, AllocError>
        requires { sum counts.now ≤ 1048576 }
        ensures { IfOk result (λ outputs. outputs ≡ counts.now) }
    {
        let mut firsts = Vec::with_capacity(alloc, counts.len())?;
        let mut places = Vec::new(alloc);
        for part in 0..counts.len() {
            firsts.push(places.len() as u32)?;
            for output in 0..counts[part] {
                places.push((part, output))?;
            }
        }
        Ok(Outputs {
            counts: Vec::from_slice(alloc, counts)?,
            firsts,
            places,
        })
    }

    /// How many outputs there are.
    pub(crate) fn total(&self) -> u32
        ensures total { result ≡ sum self.now }
        ensures limit { result ≤ 1048576 }
    {
        self.places.len() as u32
    }

    /// The number of an output of a part.
    pub(crate) fn number(&self, part: u32, output: u32) -> usize
        requires { IsOutput self.now part output }
        ensures { result ≡ number_of self.now part output }
    {
        (self.firsts[part as usize] + output) as usize
    }

    /// The part and the output of a number.
    pub(crate) fn place(&self, number: usize) -> (usize, u32)
        requires { number < sum self.now }
        ensures { result ≡ place_of self.now number }
    {
        self.places[number]
    }
}
