//! The session table of some rows.

ghost use Rattle.std.specs.Prelude.{◌≡◌, ℕ, IfOk, All, option_copied};
ghost use Rattle.lg_timing.specs.Settling.{IsSteady};
ghost use Rattle.lg_timing.specs.Session.{stimulus};
ghost use Rattle.lg_timing.specs.Staying.{HasStood};
ghost use Rattle.lg_timing.specs.RowByRow.{IsTableOn};
ghost use Rattle.lg_instants.specs.Plain.{IsWellFormed, circuit_of};
ghost use Rattle.lg_instants.specs.Rows.{ending_of, EndsIn, RowEnds};

use crate::run::settle;
use crate::{Behaviour, Circuit, Configuration, Outcome, Stimulus, Words};
use lg_timing::{Phase, Settling};
use lg_value::Bit;
use std::alloc::{AllocError, Global};
use std::marker::Model;

/// A row of the table: the words of the output pins, the instants taken, and those of the rise and
/// the fall where there is a clock.
#[derive(Debug, Drop)]
pub struct Line {
    /// The words of the output pins once all has settled.
    pub outputs: Words,
    /// The instants that the row's words took to settle.
    pub settle: u64,
    /// The instants of the rise and of the fall.
    pub tick: Option<(u64, u64)>,
}

impl Model for Line {
    ghost use Rattle.lg_timing.specs.Session.{Line};

    ghost Value = { Line };

    ghost view = { λ l. record { outputs = l.outputs; settle = l.settle; tick = l.tick } };
}

impl Line {
    fn new(outputs: Words, settle: u64, tick: Option<(u64, u64)>) -> Line
        ensures { result ≡ record { outputs = outputs; settle = settle; tick = tick } }
    {
        Line {
            outputs,
            settle,
            tick,
        }
    }
}

/// Where the table ends early.
#[derive(Debug, Drop)]
pub struct Stop {
    /// The number of the row, from 1.
    pub row: u64,
    /// Its phase.
    pub phase: Phase,
}

impl Model for Stop {
    ghost use Rattle.lg_timing.specs.Session.{Stop};

    ghost Value = { Stop };

    ghost view = { λ s. record { row = s.row; phase = s.phase } };
}

/// The table of some rows.
#[derive(Debug, Drop)]
pub struct Table {
    /// A line for each row that settled.
    pub lines: Vec<Line>,
    /// Where the table ends early.
    pub stop: Option<Stop>,
}

impl Model for Table {
    ghost use Rattle.lg_timing.specs.Session.{Table};

    ghost Value = { Table };

    ghost view = { λ t. record { lines = t.lines.items; stop = t.stop } };
}

// What becomes of a stimulus: it settles after so many instants in a configuration, or oscillates.
#[derive(Drop)]
enum Ending {
    Settled(u64, Configuration),
    Oscillates,
}

// What becomes of a row: its line and the configuration where it settled, or the phase where it
// stops.
#[derive(Drop)]
enum Row {
    Done(Line, Configuration),
    Stops(Phase),
}

impl Ending {
    // What an outcome says of its stimulus.
    fn of(outcome: Outcome) -> Ending
        ensures { result ≡ ending_of outcome.settling outcome.configuration }
    {
        let Outcome {
            settling,
            configuration,
        } = outcome;
        match settling {
            Settling::Settled { took, .. } => Ending::Settled(took, configuration),
            Settling::Oscillates { .. } => Ending::Oscillates,
        }
    }
}

// Puts words and a clock bit on the pins.
fn put<P: Behaviour>(
    alloc: Global,
    circuit: &Circuit<P>,
    stood: Option<&Configuration>,
    words: &Words,
    clock: Bit,
    limit: u32,
) -> Result<Ending, AllocError>
    requires well_formed { IsWellFormed (circuit_of P.meaning circuit.now) }
    requires steady { (greatest : ℕ) × All (IsSteady greatest) (circuit_of P.meaning circuit.now).parts }
    requires stood { HasStood (circuit_of P.meaning circuit.now) (option_copied stood) }
    ensures { IfOk result (λ ending. EndsIn (circuit_of P.meaning circuit.now) limit
        (option_copied stood.entry) (stimulus 0 words.now clock) ending) }
{
    let stimulus = Stimulus::new(0, Words::copy_of(alloc, words.words())?, clock);
    let outcome = settle(alloc, circuit, stood, &stimulus, limit)?;
    Ok(Ending::of(outcome))
}

// What becomes of a row whose words are put on what stood.
fn row_of<P: Behaviour>(
    alloc: Global,
    circuit: &Circuit<P>,
    stood: Option<&Configuration>,
    words: &Words,
    limit: u32,
) -> Result<Row, AllocError>
    requires well_formed { IsWellFormed (circuit_of P.meaning circuit.now) }
    requires steady { (greatest : ℕ) × All (IsSteady greatest) (circuit_of P.meaning circuit.now).parts }
    requires stood { HasStood (circuit_of P.meaning circuit.now) (option_copied stood) }
    ensures { IfOk result (λ row. RowEnds (circuit_of P.meaning circuit.now) limit
        (option_copied stood.entry) words.now row) }
{
    let (settle, settled) = match put(alloc, circuit, stood, words, Bit::Zero, limit)? {
        Ending::Oscillates => return Ok(Row::Stops(Phase::Settle)),
        Ending::Settled(took, at) => (took, at),
    };
    let outputs = settled.read(alloc, circuit)?;
    if circuit.clocks.nets().is_empty() {
        return Ok(Row::Done(Line::new(outputs, settle, None), settled));
    }
    let (rise, risen) = match put(alloc, circuit, Some(&settled), words, Bit::One, limit)? {
        Ending::Oscillates => return Ok(Row::Stops(Phase::Rise)),
        Ending::Settled(took, at) => (took, at),
    };
    let (fall, fallen) = match put(alloc, circuit, Some(&risen), words, Bit::Zero, limit)? {
        Ending::Oscillates => return Ok(Row::Stops(Phase::Fall)),
        Ending::Settled(took, at) => (took, at),
    };
    Ok(Row::Done(Line::new(outputs, settle, Some((rise, fall))), fallen))
}

/// The session table of some rows.
///
/// # Errors
///
/// There was no memory.
pub fn session<P: Behaviour>(
    alloc: Global,
    circuit: &Circuit<P>,
    rows: &[Words],
    limit: u32,
) -> Result<Table, AllocError>
    requires well_formed { IsWellFormed (circuit_of P.meaning circuit.now) }
    requires steady { (greatest : ℕ) × All (IsSteady greatest) (circuit_of P.meaning circuit.now).parts }
    ensures { IfOk result (λ table.
        IsTableOn (circuit_of P.meaning circuit.now) limit rows.now table) }
{
    let mut stood = None;
    let mut lines = Vec::new(alloc);
    for (i, words) in rows.iter().enumerate() {
        match row_of(alloc, circuit, stood.as_ref(), words, limit)? {
            Row::Done(line, last) => {
                lines.push(line)?;
                stood = Some(last);
            }
            Row::Stops(phase) => {
                let stop = Some(Stop {
                    row: i as u64 + 1,
                    phase,
                });
                return Ok(Table { lines, stop });
            }
        }
    }
    Ok(Table { lines, stop: None })
}
