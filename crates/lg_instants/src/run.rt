//! A stimulus settles or oscillates, and its evaluations are counted.

ghost use Rattle.std.specs.Prelude.{◌≡◌, ◌+◌, ◌^◌, ◌<◌, ℕ, IfOk, length, map, All, option_copied};
ghost use Rattle.lg_timing.specs.Settling.{IsSteady};
ghost use Rattle.lg_timing.specs.Configuration.{staying, HaveDelays};
ghost use Rattle.lg_timing.specs.Evaluation.{evaluations_at, evaluations_between};
ghost use Rattle.lg_timing.specs.Staying.{is_busy_between, configuration_put, IsSettlingOn, IsLedTo, HasStood};
ghost use Rattle.lg_instants.specs.Plain.{IsWellFormed, circuit_of, greatest_delay};
ghost use Rattle.lg_instants.specs.Stepping.{differing, instants_of, IsRun, RunSteps, RunFinds};

use crate::words::words_of;
use crate::{Behaviour, Circuit, Configuration, Stimulus, Words};
use lg_timing::Settling;
use std::alloc::{AllocError, Global};

/// What becomes of a stimulus, and where that shows.
#[derive(Debug, Drop)]
pub struct Outcome {
    /// Whether it settles, in how many instants, and with how many evaluations.
    pub settling: Settling,
    /// The configuration where it has settled, or at the busy instant past the limit.
    pub configuration: Configuration,
}

// A run from a stimulus on: how many instants it took, and the evaluations before the one where it
// stands, and with those there.
#[derive(Drop)]
struct Run {
    configuration: Configuration,
    took: u64,
    before: u64,
    evaluations: u64,
}

/// The greatest delay of some parts.
fn greatest_delay<P: Behaviour>(parts: &[P]) -> u32
    ensures { result ≡ greatest_delay (map P.meaning parts.now) }
{
    let mut greatest = 0;
    for part in parts {
        greatest = greatest.max(part.delay());
    }
    greatest
}

// Whether some part shows another word than in the configuration before.
fn is_busy<P: Behaviour>(circuit: &Circuit<P>, before: &Configuration, now: &Configuration) -> bool
    ensures { result ≡ is_busy_between (circuit_of P.meaning circuit.now) before.now now.now }
{
    for i in 0..circuit.parts.len() {
        if words_of(before.shown(), i) != words_of(now.shown(), i) {
            return true;
        }
    }
    false
}

// How many words differ from those before.
fn differing(before: &[Words], now: &[Words]) -> usize
    ensures { result ≡ differing before.now now.now }
{
    let mut count = 0;
    for i in 0..before.len() {
        if i >= now.len() {
            return count;
        }
        if before[i].words() != now[i].words() {
            count += 1;
        }
    }
    count
}

// How many parts have an evaluation where one configuration comes after another.
fn evaluations<P: Behaviour>(
    alloc: Global,
    circuit: &Circuit<P>,
    before: &Configuration,
    now: &Configuration,
) -> Result<usize, AllocError>
    requires { IsWellFormed (circuit_of P.meaning circuit.now) }
    ensures { IfOk result (λ count. count ≡
        evaluations_between (circuit_of P.meaning circuit.now) before.now now.now) }
{
    let before = before.inputs(alloc, circuit)?;
    let now = now.inputs(alloc, circuit)?;
    Ok(differing(before.as_slice(), now.as_slice()))
}

/// How many parts have an evaluation at an instant.
///
/// # Errors
///
/// There was no memory.
pub fn evaluations_at<P: Behaviour>(
    alloc: Global,
    circuit: &Circuit<P>,
    stimuli: &[Stimulus],
    instant: u64,
) -> Result<usize, AllocError>
    requires well_formed { IsWellFormed (circuit_of P.meaning circuit.now) }
    requires delays { HaveDelays (circuit_of P.meaning circuit.now) }
    ensures { IfOk result (λ count. count ≡
        evaluations_at (circuit_of P.meaning circuit.now) stimuli.now instant) }
{
    if instant == 0 {
        return Ok(circuit.parts.len());
    }
    let before = Configuration::at(alloc, circuit, stimuli, instant - 1)?;
    let now = Configuration::at(alloc, circuit, stimuli, instant)?;
    evaluations(alloc, circuit, &before, &now)
}

// A run that begins with a stimulus that is put on what stood.
fn begin<P: Behaviour>(
    alloc: Global,
    circuit: &Circuit<P>,
    stood: Option<&Configuration>,
    stimulus: &Stimulus,
) -> Result<Run, AllocError>
    requires { IsWellFormed (circuit_of P.meaning circuit.now) }
    ensures is { IfOk result
        (λ run. IsRun (circuit_of P.meaning circuit.now) (option_copied stood.entry) stimulus.now run) }
    ensures none { IfOk result (λ run. run.took ≡ 0) }
{
    match stood {
        None => Ok(Run {
            configuration: Configuration::first(alloc, circuit, stimulus)?,
            took: 0,
            before: 0,
            evaluations: circuit.parts.len() as u64,
        }),
        Some(stood) => {
            let configuration = stood.next(alloc, circuit, stimulus)?;
            let own = evaluations(alloc, circuit, stood, &configuration)?;
            Ok(Run {
                configuration,
                took: 0,
                before: 0,
                evaluations: own as u64,
            })
        }
    }
}

// Goes on by one instant, and tells whether that is busy.
fn step<P: Behaviour>(
    alloc: Global,
    circuit: &Circuit<P>,
    run: &mut Run,
) -> Result<bool, AllocError>
    requires well_formed { IsWellFormed (circuit_of P.meaning circuit.now) }
    requires early { run.old.took + 1 < 2 ^ 64 }
    ensures { IfOk result (λ busy. RunSteps (circuit_of P.meaning circuit.now) run.old run.new busy) }
{
    let next = run.configuration.stay(alloc, circuit)?;
    let busy = is_busy(circuit, &run.configuration, &next);
    let more = evaluations(alloc, circuit, &run.configuration, &next)?;
    *run = Run {
        configuration: next,
        took: run.took + 1,
        before: run.evaluations,
        evaluations: run.evaluations.saturating_add(more as u64),
    };
    Ok(busy)
}

// Goes on to the next busy instant, or as far as asked for.
fn next_busy<P: Behaviour>(
    alloc: Global,
    circuit: &Circuit<P>,
    run: &mut Run,
    reach: u32,
) -> Result<bool, AllocError>
    requires well_formed { IsWellFormed (circuit_of P.meaning circuit.now) }
    requires early { run.old.took + reach < 2 ^ 64 }
    ensures { IfOk result
        (λ found. RunFinds (circuit_of P.meaning circuit.now) run.old run.new reach found) }
{
    for _ in 0..reach {
        if step(alloc, circuit, run)? {
            return Ok(true);
        }
    }
    Ok(false)
}

/// What becomes of a stimulus that is put on what stood, or as the first one where nothing did.
///
/// # Errors
///
/// There was no memory.
pub fn settle<P: Behaviour>(
    alloc: Global,
    circuit: &Circuit<P>,
    stood: Option<&Configuration>,
    stimulus: &Stimulus,
    limit: u32,
) -> Result<Outcome, AllocError>
    requires well_formed { IsWellFormed (circuit_of P.meaning circuit.now) }
    requires steady { (greatest : ℕ) × All (IsSteady greatest) (circuit_of P.meaning circuit.now).parts }
    requires stood { HasStood (circuit_of P.meaning circuit.now) (option_copied stood) }
    ensures settling { IfOk result (λ outcome. IsSettlingOn (circuit_of P.meaning circuit.now)
        (option_copied stood.entry) stimulus.now limit outcome.settling) }
    ensures configuration { IfOk result (λ outcome. outcome.configuration ≡ staying (circuit_of P.meaning circuit.now)
        (configuration_put (circuit_of P.meaning circuit.now) (option_copied stood.entry) stimulus.now)
        (instants_of outcome.settling)) }
    // So the next stimulus may be put on it.
    ensures led { IfOk result (λ outcome. IsLedTo (circuit_of P.meaning circuit.now) outcome.configuration) }
{
    let reach = greatest_delay(circuit.parts.as_slice());
    let mut run = begin(alloc, circuit, stood, stimulus)?;
    let mut last = 0;
    for _ in 0..u64::from(limit) + 1 {
        if !next_busy(alloc, circuit, &mut run, reach)? {
            return Ok(Outcome {
                settling: Settling::Settled {
                    took: last,
                    evaluations: run.evaluations,
                },
                configuration: run.configuration,
            });
        }
        last = run.took;
    }
    Ok(Outcome {
        settling: Settling::Oscillates {
            busy: last,
            evaluations: run.before,
        },
        configuration: run.configuration,
    })
}
