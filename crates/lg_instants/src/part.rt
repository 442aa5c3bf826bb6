//! Parts of a circuit.

ghost use Rattle.std.specs.Prelude.{◌≡◌, IfOk};
ghost use Rattle.lg_timing.specs.Circuit.{Part};

use crate::Port;
use lg_value::Word;
use std::alloc::{AllocError, Global};

/// A part: its delay, its ports and what it does.
pub trait Behaviour {
    /// What the part is in contracts.
    ghost meaning: { Self → Part };

    /// After how many instants its outputs answer.
    fn delay(&self) -> u32
        ensures { result ≡ (meaning self.now).delay };

    /// The ports that it reads.
    fn inputs(&self) -> &[Port]
        ensures { result.now ≡ (meaning self.now).inputs };

    /// The ports that it drives.
    fn outputs(&self) -> &[Port]
        ensures { result.now ≡ (meaning self.now).outputs };

    /// Its state before instant 0, which is no word for a part without one.
    fn start(&self, alloc: Global) -> Result<Vec<Word>, AllocError>
        ensures { IfOk result (λ words. words.items ≡ (meaning self.now).start) };

    /// The next state from the state, the inputs before and the inputs now.
    fn step(
        &self,
        alloc: Global,
        state: &[Word],
        before: &[Word],
        now: &[Word],
    ) -> Result<Vec<Word>, AllocError>
        ensures { IfOk result (λ words.
            words.items ≡ (meaning self.now).step state.now before.now now.now) };

    /// A word for each output, from the state and the inputs.
    fn out(&self, alloc: Global, state: &[Word], inputs: &[Word]) -> Result<Vec<Word>, AllocError>
        ensures { IfOk result (λ words.
            words.items ≡ (meaning self.now).out state.now inputs.now) };
}
