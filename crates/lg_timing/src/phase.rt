//! What a row of a session does in turn.

/// What a row does in turn: its inputs settle, and with a clock it rises and falls.
#[derive(Clone, Copy, Debug, PartialEq, Eq)]
pub enum Phase {
    /// The row's words stand on the pins, with the clocks at 0.
    Settle,
    /// The clocks go to 1.
    Rise,
    /// The clocks go back to 0.
    Fall,
}
