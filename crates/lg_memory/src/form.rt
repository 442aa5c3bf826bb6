//! The forms of parts with a state.

use sqlite_items::Items;

/// When a clock makes a part store.
#[derive(Clone, Copy, Debug, PartialEq, Eq)]
pub enum Trigger {
    /// Where it goes from exactly 0 to exactly 1.
    Rising,
    /// Where it goes from exactly 1 to exactly 0.
    Falling,
    /// Where it is 1 after the step.
    High,
    /// Where it is 0 after the step.
    Low,
}

/// A kind of flip-flop.
#[derive(Clone, Copy, Debug, PartialEq, Eq)]
pub enum FlipKind {
    /// Stores its data.
    D,
    /// Turns over where its input is 1.
    T,
    /// Clears, sets, and inverts where both inputs are 1.
    Jk,
    /// Sets and clears, and holds where both inputs are 1.
    Sr,
}

/// What a counter does at the end to which it counts.
#[derive(Clone, Copy, Debug, PartialEq, Eq)]
pub enum Goal {
    /// It begins again at the other end.
    Wrap,
    /// It stays.
    Stay,
    /// It counts on, modulo 2 to the width.
    Continue,
    /// It loads its data.
    Load,
}

/// What a part with a state is, by its attributes. Widths and lengths are 1 to 64, address widths 1 to 24; T and J-K
/// flip-flops, counters, shift registers and RAMs have an edge as their trigger.
///
/// The inputs of each form stand in the order of its ports: `in`, `clk`, `pre`, `clr` for D and T; `in0`, `in1`,
/// `clk`, `pre`, `clr` for J-K and S-R.
#[derive(Debug, Drop)]
pub enum StateForm {
    /// A flip-flop, with the outputs `q` and `nq`.
    Flip {
        kind: FlipKind,
        trigger: Trigger,
    },
    /// Inputs `d`, `en`, `clk`, `clr`.
    Register {
        width: u32,
        trigger: Trigger,
    },
    /// Inputs `d`, `ld`, `ud`, `en`, `clk`, `clr`; outputs `q` and `carry`. `max` is below 2 to the width.
    Counter {
        width: u32,
        max: u64,
        goal: Goal,
        trigger: Trigger,
    },
    /// Inputs `si`, `sh`, `clk`, `clr` and, where it is parallel, `ld` and a `d` for each stage; its output is the
    /// last stage or, where it is parallel, each stage.
    Shift {
        width: u32,
        length: u32,
        parallel: bool,
        trigger: Trigger,
    },
    /// Input `a`. There are at most 2 to the power `address` words, each below 2 to the width; missing ones are 0.
    Rom {
        address: u32,
        width: u32,
        words: Items<u64>,
    },
    /// Inputs `a`, `d`, `we`, `clk`.
    Ram {
        address: u32,
        width: u32,
        trigger: Trigger,
    },
}
