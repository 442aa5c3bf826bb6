//! Circuits that a person worked out instant by instant.

use crate::timing_circuits::*;
use crate::timing_samples::{Kind, Sample};
use crate::timing_script::obey;
use lg_instants::{
    Circuit, Configuration, Nets, Phase, Port, Settling, Stimulus, Table, Words, evaluations_at,
    is_well_formed, session, settle, value_at,
};
use lg_value::{Bit, Word};
use std::alloc::{AllocError, Global};
use std::process::Abort;
use std::test::Fail;

const ZERO: Bit = Bit::Zero;

const ONE: Bit = Bit::One;

const UNKNOWN: Bit = Bit::Unknown;

fn ports(alloc: Global, nets: &[u32]) -> Result<Vec<Port>, AllocError> {
    let mut ports = Vec::new(alloc);
    for net in nets {
        let net = Vec::from_slice(alloc, &[*net])?;
        ports.push(Port::new(Nets::new(net), 1))?;
    }
    Ok(ports)
}

pub(crate) fn pins(alloc: Global, nets: &[u32]) -> Result<Vec<Nets>, AllocError> {
    let mut pins = Vec::new(alloc);
    for net in nets {
        pins.push(Nets::new(Vec::from_slice(alloc, &[*net])?))?;
    }
    Ok(pins)
}

pub(crate) fn part(
    alloc: Global,
    kind: Kind,
    inputs: &[u32],
    outputs: &[u32],
) -> Result<Sample, AllocError> {
    let inputs = ports(alloc, inputs)?;
    let outputs = ports(alloc, outputs)?;
    Ok(Sample {
        kind,
        inputs,
        outputs,
    })
}

// A circuit with one-bit pins on these nets.
fn circuit(
    alloc: Global,
    parts: &[(Kind, &[u32], &[u32])],
    inputs: &[u32],
    outputs: &[u32],
    clocks: &[u32],
) -> Result<Circuit<Sample>, AllocError> {
    let mut made = Vec::new(alloc);
    for (kind, reads, drives) in parts {
        made.push(part(alloc, *kind, reads, drives)?)?;
    }
    Ok(Circuit {
        parts: made,
        pulls: Vec::new(alloc),
        pins: pins(alloc, inputs)?,
        outputs: pins(alloc, outputs)?,
        clocks: Nets::new(Vec::from_slice(alloc, clocks)?),
    })
}

pub(crate) fn words(alloc: Global, bits: &[Bit]) -> Result<Words, AllocError> {
    let mut words = Vec::new(alloc);
    for bit in bits {
        words.push(Word::fill(1, *bit))?;
    }
    Ok(Words::new(words))
}

fn stimuli(alloc: Global, put: &[(u64, Bit)]) -> Result<Vec<Stimulus>, AllocError> {
    let mut stimuli = Vec::new(alloc);
    for (from, bit) in put {
        stimuli.push(Stimulus::new(*from, words(alloc, &[*bit])?, ZERO))?;
    }
    Ok(stimuli)
}

// The bits of a net at instants 0, 1 and so on.
pub(crate) fn expect_net(
    rt: &impl Abort,
    alloc: Global,
    circuit: &Circuit<Sample>,
    stimuli: &[Stimulus],
    net: u32,
    want: &[Bit],
) -> Result<(), Fail> {
    assert!(rt; is_well_formed(circuit));
    for (instant, bit) in want.iter().enumerate() {
        let found = value_at(alloc, circuit, stimuli, instant as u64, net)?;
        assert_eq!(rt; found, *bit, "net {net} at {instant}");
    }
    Ok(())
}

// The bit of a net where the configuration of an instant of a circuit that is well formed has gone
// on by so many.
fn value_after(
    rt: &impl Abort,
    alloc: Global,
    circuit: &Circuit<Sample>,
    stimuli: &[Stimulus],
    (at, count): (u32, u32),
    net: u32,
) -> Result<Bit, AllocError> {
    assert!(rt; is_well_formed(circuit));
    let (at, count) = (u64::from(at), u64::from(count));
    let configuration = Configuration::at(alloc, circuit, stimuli, at)?;
    let later = configuration.go_on(alloc, circuit, stimuli, at, count)?;
    Ok(later.value(circuit, net))
}

// The table of a circuit that is well formed.
fn table_of(
    rt: &impl Abort,
    alloc: Global,
    circuit: &Circuit<Sample>,
    rows: &[Words],
    limit: u32,
) -> Result<Table, AllocError> {
    assert!(rt; is_well_formed(circuit));
    session(alloc, circuit, rows, limit)
}

// What becomes of a second stimulus of a circuit that is well formed, where the first has stood
// from 0 up to an instant.
pub(crate) fn settling_of(
    rt: &impl Abort,
    alloc: Global,
    circuit: &Circuit<Sample>,
    bits: (Bit, Bit),
    until: u64,
    limit: u32,
) -> Result<Settling, AllocError> {
    assert!(rt; is_well_formed(circuit));
    let first = Stimulus::new(0, words(alloc, &[bits.0])?, ZERO);
    let stood = Configuration::at(alloc, circuit, &[first], until)?;
    let second = Stimulus::new(0, words(alloc, &[bits.1])?, ZERO);
    let outcome = settle(alloc, circuit, Some(&stood), &second, limit)?;
    Ok(outcome.settling)
}

// What becomes of bits that are put one after another, each where the one before has settled.
pub(crate) fn expect_settlings(
    rt: &impl Abort,
    alloc: Global,
    circuit: &Circuit<Sample>,
    limit: u32,
    want: &[(Bit, Settling)],
) -> Result<(), Fail> {
    assert!(rt; is_well_formed(circuit));
    let mut stood = None;
    for (bit, settling) in want {
        let put = Stimulus::new(0, words(alloc, &[*bit])?, ZERO);
        let outcome = settle(alloc, circuit, stood.as_ref(), &put, limit)?;
        assert_eq!(rt; outcome.settling, *settling);
        stood = Some(outcome.configuration);
    }
    Ok(())
}

// How many parts of a circuit that is well formed have an evaluation at instants 0, 1 and so on.
pub(crate) fn expect_evaluations(
    rt: &impl Abort,
    alloc: Global,
    circuit: &Circuit<Sample>,
    stimuli: &[Stimulus],
    want: &[usize],
) -> Result<(), Fail> {
    assert!(rt; is_well_formed(circuit));
    for (instant, count) in want.iter().enumerate() {
        let found = evaluations_at(alloc, circuit, stimuli, instant as u64)?;
        assert_eq!(rt; found, *count, "at {instant}");
    }
    Ok(())
}

pub(crate) type Ticks = Option<(u64, u64)>;

// The lines of a table, each with the first output, and where it stops.
pub(crate) fn expect_table(
    rt: &impl Abort,
    alloc: Global,
    circuit: &Circuit<Sample>,
    rows: &[Words],
    limit: u32,
    want: &[(Bit, u64, Ticks)],
    stop: Option<(u64, Phase)>,
) -> Result<(), Fail> {
    let table = table_of(rt, alloc, circuit, rows, limit)?;
    assert_eq!(rt; table.lines.len(), want.len());
    for (line, (output, settle, tick)) in table.lines.iter().zip(want) {
        assert_eq!(rt; line.outputs.words(), [Word::fill(1, *output)].as_slice());
        assert_eq!(rt; line.settle, *settle);
        assert_eq!(rt; line.tick, *tick);
    }
    let stopped = table.stop.map(|stop| (stop.row, stop.phase));
    assert_eq!(rt; stopped, stop);
    Ok(())
}

#[test]
fn not_gate_settles_in_one_instant(rt: HostRuntime) -> Result<(), Fail> {
    obey(&rt, rt.alloc(), NOT_GATE)
}

#[test]
fn change_runs_down_a_chain(rt: HostRuntime) -> Result<(), Fail> {
    obey(&rt, rt.alloc(), CHAIN_OF_FOUR)
}

#[test]
fn pulse_shorter_than_a_delay_passes_a_chain(rt: HostRuntime) -> Result<(), Fail> {
    obey(&rt, rt.alloc(), CHAIN_OF_DELAYS)
}

#[test]
fn change_taken_back_before_it_came_out_comes_out(rt: HostRuntime) -> Result<(), Fail> {
    obey(&rt, rt.alloc(), CHANGE_TAKEN_BACK)
}

#[test]
fn configuration_goes_on_as_the_instants_do(rt: HostRuntime) -> Result<(), Fail> {
    let alloc = rt.alloc();
    let line = circuit(alloc, &[(Kind::Line5, &[0], &[1])], &[0], &[1], &[])?;
    let put = stimuli(alloc, &[(0, ZERO), (3, ONE), (4, ZERO)])?;
    let put = put.as_slice();
    for (at, count, pin, want) in [
        (0, 0, ZERO, UNKNOWN),
        (0, 3, ONE, UNKNOWN),
        (2, 3, ZERO, ZERO),
        (4, 3, ZERO, ZERO),
        (2, 6, ZERO, ONE),
        (4, 4, ZERO, ONE),
        (4, 5, ZERO, ZERO),
        (8, 1, ZERO, ZERO),
    ] {
        assert_eq!(rt; value_after(&rt, alloc, &line, put, (at, count), 0)?, pin);
        let found = value_after(&rt, alloc, &line, put, (at, count), 1)?;
        assert_eq!(rt; found, want, "{count} after {at}");
    }
    Ok(())
}

#[test]
fn nand_loop_toggles_at_each_instant(rt: HostRuntime) -> Result<(), Fail> {
    obey(&rt, rt.alloc(), NAND_LOOP)
}

#[test]
fn loop_oscillates_where_a_pin_enables_it(rt: HostRuntime) -> Result<(), Fail> {
    obey(&rt, rt.alloc(), ENABLED_LOOP)
}

#[test]
fn two_gates_on_one_net_disagree(rt: HostRuntime) -> Result<(), Fail> {
    obey(&rt, rt.alloc(), TWO_GATES)
}

#[test]
fn pull_yields_to_drivers(rt: HostRuntime) -> Result<(), Fail> {
    obey(&rt, rt.alloc(), PULLED_NETS)
}

#[test]
fn constant_is_busy_at_instant_one(rt: HostRuntime) -> Result<(), Fail> {
    obey(&rt, rt.alloc(), CONSTANT)
}

#[test]
fn flip_flop_toggles_at_each_rise(rt: HostRuntime) -> Result<(), Fail> {
    obey(&rt, rt.alloc(), TOGGLE)
}

#[test]
fn flip_flop_takes_the_data_of_its_trigger(rt: HostRuntime) -> Result<(), Fail> {
    obey(&rt, rt.alloc(), FLIP_FLOP)
}

#[test]
fn clock_that_enables_a_loop_stops_at_the_rise(rt: HostRuntime) -> Result<(), Fail> {
    obey(&rt, rt.alloc(), CLOCKED_LOOP)
}

#[test]
fn pins_of_two_bits_pass_a_word(rt: HostRuntime) -> Result<(), Fail> {
    let alloc = rt.alloc();
    let mut crossed = circuit(alloc, &[], &[], &[], &[])?;
    crossed
        .pins
        .push(Nets::new(Vec::from_slice(alloc, &[0, 1])?))?;
    crossed
        .outputs
        .push(Nets::new(Vec::from_slice(alloc, &[1, 0])?))?;
    let row = Words::copy_of(alloc, &[Word::from_number(2, 1)])?;
    let table = table_of(&rt, alloc, &crossed, &[row], 0)?;
    assert_eq!(rt; table.lines.len(), 1);
    let line = &table.lines[0];
    assert_eq!(rt; line.outputs.words(), [Word::from_number(2, 2)].as_slice());
    assert_eq!(rt; line.settle, 0);
    Ok(())
}

#[test]
fn widths_past_the_ends_are_not_well_formed(rt: HostRuntime) -> Result<(), Fail> {
    let alloc = rt.alloc();
    for (nets, width, want) in [
        (0, 1, true),
        (0, 64, true),
        (1, 1, true),
        (2, 2, true),
        (0, 0, false),
        (0, 65, false),
        (1, 2, false),
    ] {
        let nets = Nets::new(Vec::from_slice(alloc, &[0, 1][..nets])?);
        let mut inputs = Vec::new(alloc);
        inputs.push(Port::new(nets, width))?;
        let mut odd = circuit(alloc, &[], &[], &[], &[])?;
        let outputs = Vec::new(alloc);
        odd.parts.push(Sample {
            kind: Kind::Not,
            inputs,
            outputs,
        })?;
        assert_eq!(rt; is_well_formed(&odd), want, "width {width}");
    }
    Ok(())
}
