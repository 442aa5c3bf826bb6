//! What is to be done, and what stands round it.

ghost use Rattle.std.specs.Prelude.{◌≡◌, IfOk};

use crate::Memory;
use std::alloc::Global;

/// A piece of work, which any thread may do.
pub trait Job: Sync {
    /// What a job answers.
    type Out: Send + Drop;

    /// The answer of a job: what it means.
    ghost answer: { Self → Self.Out };

    /// Does the job. `Memory`: there was none.
    fn go(&self, alloc: Global) -> Result<Self::Out, Memory>
        ensures answer { IfOk result (λ it. it ≡ answer self.now) };
}

/// What stands round each job: called with its number before it and after it, by the worker that does it.
pub trait Gate: Sync {
    /// Before the job.
    fn before(&self, job: u32);

    /// After the job, also where it found no memory.
    fn after(&self, job: u32);
}

/// A gate that is always open: its calls do nothing.
pub struct Open;

impl Gate for Open {
    fn before(&self, _job: u32) {}

    fn after(&self, _job: u32) {}
}
