//! Going on from one instant to the next with a configuration alone.

ghost use Rattle.std.specs.Prelude.{◌≡◌, ◌+◌, ◌^◌, ◌<◌, ◌++◌, ◌∷◌, [], true, IfOk, map, drop, replicate, slice_index_or};
ghost use Rattle.std.specs.List.{list_all};
ghost use Rattle.lg_timing.specs.Instant.{Numbered, numbered_parts, unknown_words, value_at};
ghost use Rattle.lg_timing.specs.Configuration.{configuration_at, first, next, going_on, nets_of, stimulus_of, HaveDelays};
ghost use Rattle.lg_timing.specs.RowByRow.{read_on};
ghost use Rattle.lg_instants.specs.Plain.{IsWellFormed, circuit_of, is_port, all_inputs};
ghost use Rattle.lg_instants.specs.Stepping.{first_due, start_from, starts_from, steps_from, dues_from, unknown_dues};

use crate::drivers::net_bit;
use crate::inputs::{all_inputs, unknown_words, word_on};
use crate::stimuli::{in_force, silence};
use crate::words::words_of;
use crate::{Behaviour, Circuit, Stimulus, Words};
use lg_value::{Bit, Word};
use std::alloc::{AllocError, Global};
use std::marker::Model;

/// What a part is to show at each of the next instants up to its delay. In a contract it is the
/// list of these words.
#[derive(Debug, Drop)]
pub struct Due {
    words: Vec<Words>,
}

impl Model for Due {
    ghost use Rattle.std.specs.Prelude.{List};
    ghost use Rattle.lg_value.specs.declared.bit.Bit.{Bit as OneBit};

    ghost Value = { List (List (List OneBit)) };

    ghost view = { λ d. d.words.items };
}

impl Due {
    fn new(words: Vec<Words>) -> Due
        ensures { result ≡ words.items }
    {
        Due { words }
    }

    fn words(&self) -> &[Words]
        ensures { result.now ≡ self.now }
    {
        self.words.as_slice()
    }
}

/// What an instant leaves to the later ones: what is on the pins and clocks, and for each part its
/// state, what it shows and what it is to show.
#[derive(Debug, Drop)]
pub struct Configuration {
    stimulus: Stimulus,
    states: Vec<Words>,
    shown: Vec<Words>,
    due: Vec<Due>,
}

impl Model for Configuration {
    ghost use Rattle.lg_timing.specs.Configuration.{Configuration};

    ghost Value = { Configuration };

    ghost view = { λ k. record {
      words = k.stimulus.words;
      clock = k.stimulus.clock;
      states = k.states.items;
      shown = k.shown.items;
      due = k.due.items;
    } };
}

// What is due of a part, and nothing past the list's end.
fn due_of(list: &[Due], place: usize) -> &[Words]
    ensures { result.now ≡ slice_index_or list.now place [] }
{
    match list.get(place) {
        Some(due) => due.words(),
        None => &[],
    }
}

// What each part shows at first: unknown words.
fn all_unknown<P: Behaviour>(alloc: Global, circuit: &Circuit<P>) -> Result<Vec<Words>, AllocError>
    requires { IsWellFormed (circuit_of P.meaning circuit.now) }
    ensures { IfOk result (λ shown. shown.items ≡
        map (λ (p : Numbered). unknown_words p.1.outputs) (numbered_parts (circuit_of P.meaning circuit.now))) }
{
    let parts = circuit.parts.as_slice();
    let mut shown = Vec::new(alloc);
    for i in 0..parts.len() {
        shown.push(Words::new(unknown_words(alloc, parts[i].outputs())?))?;
    }
    Ok(shown)
}

// The state of a part after its first step, to these inputs.
fn start_of<P: Behaviour>(alloc: Global, part: &P, now: &[Word]) -> Result<Words, AllocError>
    requires { list_all is_port (P.meaning part.now).inputs ≡ true }
    ensures { IfOk result (λ state. state ≡ start_from (P.meaning part.now) now.now) }
{
    let start = part.start(alloc)?;
    let before = unknown_words(alloc, part.inputs())?;
    Ok(Words::new(part.step(alloc, start.as_slice(), before.as_slice(), now)?))
}

// The same of every part.
fn all_starts<P: Behaviour>(
    alloc: Global,
    circuit: &Circuit<P>,
    now: &[Words],
) -> Result<Vec<Words>, AllocError>
    requires { IsWellFormed (circuit_of P.meaning circuit.now) }
    ensures { IfOk result (λ states. states.items ≡
        map (starts_from now.now) (numbered_parts (circuit_of P.meaning circuit.now))) }
{
    let parts = circuit.parts.as_slice();
    let mut states = Vec::new(alloc);
    for i in 0..parts.len() {
        states.push(start_of(alloc, &parts[i], words_of(now, i))?)?;
    }
    Ok(states)
}

// What each part shows next: what is due first.
fn all_shown<P: Behaviour>(
    alloc: Global,
    circuit: &Circuit<P>,
    due: &[Due],
) -> Result<Vec<Words>, AllocError>
    ensures { IfOk result (λ shown. shown.items ≡
        map (λ (p : Numbered). first_due due.now p.0) (numbered_parts (circuit_of P.meaning circuit.now))) }
{
    let mut shown = Vec::new(alloc);
    for i in 0..circuit.parts.len() {
        shown.push(Words::copy_of(alloc, words_of(due_of(due, i), 0))?)?;
    }
    Ok(shown)
}

// The states after a step from these, with the inputs before and now.
fn all_steps<P: Behaviour>(
    alloc: Global,
    circuit: &Circuit<P>,
    states: &[Words],
    before: &[Words],
    now: &[Words],
) -> Result<Vec<Words>, AllocError>
    ensures { IfOk result (λ stepped. stepped.items ≡
        map (steps_from states.now before.now now.now) (numbered_parts (circuit_of P.meaning circuit.now))) }
{
    let parts = circuit.parts.as_slice();
    let mut stepped = Vec::new(alloc);
    for i in 0..parts.len() {
        let state = words_of(states, i);
        let next = parts[i].step(alloc, state, words_of(before, i), words_of(now, i))?;
        stepped.push(Words::new(next))?;
    }
    Ok(stepped)
}

// What is due of a part without the first, with its answer to this state and these inputs last.
fn due_after<P: Behaviour>(
    alloc: Global,
    part: &P,
    due: &[Words],
    state: &[Word],
    now: &[Word],
) -> Result<Due, AllocError>
    ensures { IfOk result (λ later. later ≡ drop 1 due.now ++ (P.meaning part.now).out state.now now.now ∷ []) }
{
    let mut later = Vec::new(alloc);
    let rest = if due.is_empty() { due } else { &due[1..] };
    for words in rest {
        later.push(Words::copy_of(alloc, words.words())?)?;
    }
    later.push(Words::new(part.out(alloc, state, now)?))?;
    Ok(Due::new(later))
}

// The same of every part.
fn all_due<P: Behaviour>(
    alloc: Global,
    circuit: &Circuit<P>,
    due: &[Due],
    states: &[Words],
    now: &[Words],
) -> Result<Vec<Due>, AllocError>
    ensures { IfOk result (λ later. later.items ≡
        map (dues_from due.now states.now now.now) (numbered_parts (circuit_of P.meaning circuit.now))) }
{
    let parts = circuit.parts.as_slice();
    let mut later = Vec::new(alloc);
    for i in 0..parts.len() {
        let state = words_of(states, i);
        later.push(due_after(alloc, &parts[i], due_of(due, i), state, words_of(now, i))?)?;
    }
    Ok(later)
}

// Unknown words of a part, as often as its delay.
fn unknown_due<P: Behaviour>(alloc: Global, part: &P) -> Result<Due, AllocError>
    requires { list_all is_port (P.meaning part.now).outputs ≡ true }
    ensures { IfOk result (λ due. due ≡ replicate (P.meaning part.now).delay (unknown_words (P.meaning part.now).outputs)) }
{
    let mut words = Vec::new(alloc);
    for _ in 0..part.delay() {
        words.push(Words::new(unknown_words(alloc, part.outputs())?))?;
    }
    Ok(Due::new(words))
}

// The same of every part.
fn all_unknown_due<P: Behaviour>(
    alloc: Global,
    circuit: &Circuit<P>,
) -> Result<Vec<Due>, AllocError>
    requires { IsWellFormed (circuit_of P.meaning circuit.now) }
    ensures { IfOk result (λ due. due.items ≡ map unknown_dues (numbered_parts (circuit_of P.meaning circuit.now))) }
{
    let parts = circuit.parts.as_slice();
    let mut due = Vec::new(alloc);
    for i in 0..parts.len() {
        due.push(unknown_due(alloc, &parts[i])?)?;
    }
    Ok(due)
}

impl Configuration {
    fn new(
        stimulus: Stimulus,
        states: Vec<Words>,
        shown: Vec<Words>,
        due: Vec<Due>,
    ) -> Configuration
        ensures { result ≡ record {
          words = stimulus.words;
          clock = stimulus.clock;
          states = states.items;
          shown = shown.items;
          due = due.items;
        } }
    {
        Configuration {
            stimulus,
            states,
            shown,
            due,
        }
    }

    /// The configuration at instant 0 under a stimulus.
    ///
    /// # Errors
    ///
    /// There was no memory.
    pub fn first<P: Behaviour>(
        alloc: Global,
        circuit: &Circuit<P>,
        stimulus: &Stimulus,
    ) -> Result<Configuration, AllocError>
        requires { IsWellFormed (circuit_of P.meaning circuit.now) }
        ensures { IfOk result (λ k. k ≡ first (circuit_of P.meaning circuit.now) stimulus.now) }
    {
        let shown = all_unknown(alloc, circuit)?;
        let now = all_inputs(alloc, circuit, stimulus, shown.as_slice())?;
        let states = all_starts(alloc, circuit, now.as_slice())?;
        let unknown = all_unknown_due(alloc, circuit)?;
        let due = all_due(
            alloc,
            circuit,
            unknown.as_slice(),
            states.as_slice(),
            now.as_slice(),
        )?;
        Ok(Configuration::new(stimulus.copy(alloc)?, states, shown, due))
    }

    /// The next configuration under a stimulus.
    ///
    /// # Errors
    ///
    /// There was no memory.
    pub fn next<P: Behaviour>(
        &self,
        alloc: Global,
        circuit: &Circuit<P>,
        stimulus: &Stimulus,
    ) -> Result<Configuration, AllocError>
        requires { IsWellFormed (circuit_of P.meaning circuit.now) }
        ensures { IfOk result (λ k. k ≡ next (circuit_of P.meaning circuit.now) stimulus.now self.now) }
    {
        let before = all_inputs(alloc, circuit, &self.stimulus, self.shown.as_slice())?;
        let shown = all_shown(alloc, circuit, self.due.as_slice())?;
        let now = all_inputs(alloc, circuit, stimulus, shown.as_slice())?;
        let was = self.states.as_slice();
        let states = all_steps(alloc, circuit, was, before.as_slice(), now.as_slice())?;
        let due = self.due.as_slice();
        let due = all_due(alloc, circuit, due, states.as_slice(), now.as_slice())?;
        Ok(Configuration::new(stimulus.copy(alloc)?, states, shown, due))
    }

    /// The next configuration while its stimulus stays.
    ///
    /// # Errors
    ///
    /// There was no memory.
    pub fn stay<P: Behaviour>(
        &self,
        alloc: Global,
        circuit: &Circuit<P>,
    ) -> Result<Configuration, AllocError>
        requires { IsWellFormed (circuit_of P.meaning circuit.now) }
        ensures { IfOk result (λ k. k ≡ next (circuit_of P.meaning circuit.now) (stimulus_of self.now) self.now) }
    {
        self.next(alloc, circuit, &self.stimulus)
    }

    /// The words of the output pins.
    ///
    /// # Errors
    ///
    /// There was no memory.
    pub fn read<P: Behaviour>(
        &self,
        alloc: Global,
        circuit: &Circuit<P>,
    ) -> Result<Words, AllocError>
        requires { IsWellFormed (circuit_of P.meaning circuit.now) }
        ensures { IfOk result (λ words. words ≡ read_on (circuit_of P.meaning circuit.now) self.now) }
    {
        let pins = circuit.outputs.as_slice();
        let mut words = Vec::new(alloc);
        for nets in pins {
            let shown = self.shown.as_slice();
            words.push(word_on(circuit, &self.stimulus, shown, nets.nets()))?;
        }
        Ok(Words::new(words))
    }

    /// The value of a net.
    pub fn value<P: Behaviour>(&self, circuit: &Circuit<P>, net: u32) -> Bit
        ensures { result ≡ nets_of (circuit_of P.meaning circuit.now) self.now net }
    {
        net_bit(circuit, &self.stimulus, self.shown.as_slice(), net)
    }

    /// What each part shows.
    pub(crate) fn shown(&self) -> &[Words]
        ensures { result.now ≡ self.now.shown }
    {
        self.shown.as_slice()
    }

    /// The words on the inputs of every part.
    pub(crate) fn inputs<P: Behaviour>(
        &self,
        alloc: Global,
        circuit: &Circuit<P>,
    ) -> Result<Vec<Words>, AllocError>
        requires { IsWellFormed (circuit_of P.meaning circuit.now) }
        ensures { IfOk result (λ inputs. inputs.items ≡
            all_inputs (circuit_of P.meaning circuit.now) (nets_of (circuit_of P.meaning circuit.now) self.now)) }
    {
        all_inputs(alloc, circuit, &self.stimulus, self.shown.as_slice())
    }

    /// The configuration so many instants after this one, which stands at an instant.
    ///
    /// # Errors
    ///
    /// There was no memory.
    pub fn go_on<P: Behaviour>(
        self,
        alloc: Global,
        circuit: &Circuit<P>,
        stimuli: &[Stimulus],
        at: u64,
        count: u64,
    ) -> Result<Configuration, AllocError>
        requires well_formed { IsWellFormed (circuit_of P.meaning circuit.now) }
        requires early { at + count < 2 ^ 64 }
        ensures { IfOk result (λ k. k ≡ going_on (circuit_of P.meaning circuit.now) stimuli.now at self count) }
    {
        let silent = silence(alloc);
        let mut configuration = self;
        for i in 0..count {
            let stimulus = in_force(&silent, stimuli, at + i + 1);
            configuration = configuration.next(alloc, circuit, stimulus)?;
        }
        Ok(configuration)
    }

    /// The configuration at an instant.
    ///
    /// # Errors
    ///
    /// There was no memory.
    pub fn at<P: Behaviour>(
        alloc: Global,
        circuit: &Circuit<P>,
        stimuli: &[Stimulus],
        instant: u64,
    ) -> Result<Configuration, AllocError>
        requires well_formed { IsWellFormed (circuit_of P.meaning circuit.now) }
        requires delays { HaveDelays (circuit_of P.meaning circuit.now) }
        ensures { IfOk result (λ k. k ≡ configuration_at (circuit_of P.meaning circuit.now) stimuli.now instant) }
    {
        let silent = silence(alloc);
        let first = Configuration::first(alloc, circuit, in_force(&silent, stimuli, 0))?;
        first.go_on(alloc, circuit, stimuli, 0, instant)
    }
}

/// The value of a net at an instant.
///
/// # Errors
///
/// There was no memory.
pub fn value_at<P: Behaviour>(
    alloc: Global,
    circuit: &Circuit<P>,
    stimuli: &[Stimulus],
    instant: u64,
    net: u32,
) -> Result<Bit, AllocError>
    requires well_formed { IsWellFormed (circuit_of P.meaning circuit.now) }
    requires delays { HaveDelays (circuit_of P.meaning circuit.now) }
    ensures { IfOk result (λ bit.
        bit ≡ value_at (circuit_of P.meaning circuit.now) stimuli.now instant net) }
{
    let configuration = Configuration::at(alloc, circuit, stimuli, instant)?;
    Ok(configuration.value(circuit, net))
}
