//! What becomes of a stimulus.

/// What becomes of a stimulus, and how many evaluations of parts it takes. Past 2^64 - 1 they are
/// not counted.
#[derive(Clone, Copy, Debug, PartialEq, Eq)]
pub enum Settling {
    /// It settles.
    Settled {
        /// After so many instants.
        took: u64,
        /// Those from the stimulus to the instant where it has settled.
        evaluations: u64,
    },
    /// There is one busy instant more than the limit.
    Oscillates {
        /// That instant is so many after the stimulus.
        busy: u64,
        /// Those before that instant, from the stimulus on.
        evaluations: u64,
    },
}
