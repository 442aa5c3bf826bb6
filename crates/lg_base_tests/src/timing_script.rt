//! Scripts of circuits: each line makes a part of one, puts something on it, or says what it shows.
//!
//! `part KIND NET .. > NET ..`, `pins NET ..`, `outputs NET ..`, `clocks NET ..` and `pull NET BIT` make the circuit; `put
//! INSTANT BITS` puts a bit on each pin from an instant on, `clear` takes all of these back, and `rows BITS ..` sets the
//! rows of a table, `-` where there are no pins. The other lines are expectations of `timing`: `net NET BITS`,
//! `evaluations COUNT ..`, `settlings LIMIT BIT:SETTLING ..`, `stood BIT BIT UNTIL LIMIT SETTLING` and `table LIMIT STOP
//! OUTPUT,SETTLE[,TICK,TICK] ..`, where STOP is `-` or a row and a phase. A settling is `settled:TOOK:EVALUATIONS` or
//! `oscillates:BUSY:EVALUATIONS`.

use crate::timing::{
    Ticks, expect_evaluations, expect_net, expect_settlings, expect_table, part, pins, settling_of,
    words,
};
use crate::timing_samples::{Kind, Sample};
use lg_instants::{Circuit, Nets, Phase, Settling, Stimulus, Words};
use lg_value::Bit;
use std::alloc::Global;
use std::process::Abort;
use std::test::Fail;

// A circuit, and what is put on it.
#[derive(Drop)]
struct Bench {
    circuit: Circuit<Sample>,
    stimuli: Vec<Stimulus>,
    rows: Vec<Words>,
}

/// Does what the lines of a script say.
pub(crate) fn obey(rt: &impl Abort, alloc: Global, script: &str) -> Result<(), Fail> {
    let mut bench = Bench {
        circuit: Circuit {
            parts: Vec::new(alloc),
            pulls: Vec::new(alloc),
            pins: Vec::new(alloc),
            outputs: Vec::new(alloc),
            clocks: Nets::new(Vec::new(alloc)),
        },
        stimuli: Vec::new(alloc),
        rows: Vec::new(alloc),
    };
    for line in script.lines() {
        let (word, rest) = line.split_once(' ').unwrap_or((line, ""));
        match word {
            "part" | "pins" | "outputs" | "clocks" | "pull" => {
                make(alloc, &mut bench.circuit, word, rest)?;
            }
            "put" | "clear" => put(alloc, &mut bench.stimuli, rest)?,
            "rows" => bench.rows = rows(alloc, rest)?,
            "table" => table(rt, alloc, &bench, rest)?,
            _ => expect(rt, alloc, &bench, word, rest)?,
        }
    }
    Ok(())
}

fn make(alloc: Global, circuit: &mut Circuit<Sample>, word: &str, rest: &str) -> Result<(), Fail> {
    match word {
        "part" => {
            let (head, drives) = rest.split_once('>').ok_or("part")?;
            let (kind, reads) = head.split_once(' ').ok_or("part")?;
            let reads = nets(alloc, reads)?;
            let drives = nets(alloc, drives)?;
            circuit
                .parts
                .push(part(alloc, kind_of(kind)?, &reads, &drives)?)?;
        }
        "pins" => circuit.pins = pins(alloc, &nets(alloc, rest)?)?,
        "outputs" => circuit.outputs = pins(alloc, &nets(alloc, rest)?)?,
        "clocks" => circuit.clocks = Nets::new(nets(alloc, rest)?),
        _ => {
            let (net, bit) = rest.split_once(' ').ok_or("pull")?;
            circuit
                .pulls
                .push((net.parse::<u32>().ok().ok_or("net")?, bit_of(bit)))?;
        }
    }
    Ok(())
}

fn kind_of(name: &str) -> Result<Kind, Fail> {
    match name {
        "not" => Ok(Kind::Not),
        "and" => Ok(Kind::And),
        "nand" => Ok(Kind::Nand),
        "line3" => Ok(Kind::Line3),
        "line5" => Ok(Kind::Line5),
        "constant" => Ok(Kind::Constant),
        "flipflop" => Ok(Kind::FlipFlop),
        _ => Err(Fail::from("kind")),
    }
}

// Puts bits on the pins from an instant on, or where no instant is told takes all back.
fn put(alloc: Global, stimuli: &mut Vec<Stimulus>, rest: &str) -> Result<(), Fail> {
    match rest.split_once(' ') {
        Some((from, bits)) => {
            let words = words(alloc, &bits_of(alloc, bits)?)?;
            stimuli.push(Stimulus::new(number(from)?, words, Bit::Zero))?;
        }
        None => stimuli.clear(),
    }
    Ok(())
}

fn rows(alloc: Global, rest: &str) -> Result<Vec<Words>, Fail> {
    let mut rows = Vec::new(alloc);
    for row in rest.split(' ') {
        rows.push(words(alloc, &bits_of(alloc, row)?)?)?;
    }
    Ok(rows)
}

// Whether the circuit shows what a line says.
fn expect(
    rt: &impl Abort,
    alloc: Global,
    bench: &Bench,
    word: &str,
    rest: &str,
) -> Result<(), Fail> {
    let (circuit, put) = (&bench.circuit, bench.stimuli.as_slice());
    let (first, rest) = rest.split_once(' ').unwrap_or((rest, ""));
    match word {
        "net" => {
            let net = first.parse::<u32>().ok().ok_or("net")?;
            expect_net(rt, alloc, circuit, put, net, &bits_of(alloc, rest)?)
        }
        "evaluations" => {
            let counts = counts(alloc, first, rest)?;
            expect_evaluations(rt, alloc, circuit, put, &counts)
        }
        "settlings" => {
            let want = settlings(alloc, rest)?;
            expect_settlings(rt, alloc, circuit, limit(first)?, &want)
        }
        "stood" => stood(rt, alloc, circuit, bit_of(first), rest),
        _ => Err(Fail::from("line")),
    }
}

fn counts(alloc: Global, first: &str, rest: &str) -> Result<Vec<usize>, Fail> {
    let mut counts = Vec::new(alloc);
    counts.push(first.parse::<usize>().ok().ok_or("count")?)?;
    for count in rest.split(' ') {
        counts.push(count.parse::<usize>().ok().ok_or("count")?)?;
    }
    Ok(counts)
}

fn settlings(alloc: Global, text: &str) -> Result<Vec<(Bit, Settling)>, Fail> {
    let mut settlings = Vec::new(alloc);
    for settling in text.split(' ') {
        let (bit, settling) = settling.split_once(':').ok_or("settling")?;
        settlings.push((bit_of(bit), settling_from(settling)?))?;
    }
    Ok(settlings)
}

fn settling_from(text: &str) -> Result<Settling, Fail> {
    let (name, numbers) = text.split_once(':').ok_or("settling")?;
    let (instants, evaluations) = numbers.split_once(':').ok_or("settling")?;
    let (instants, evaluations) = (number(instants)?, number(evaluations)?);
    match name {
        "settled" => Ok(Settling::Settled {
            took: instants,
            evaluations,
        }),
        _ => Ok(Settling::Oscillates {
            busy: instants,
            evaluations,
        }),
    }
}

fn stood(
    rt: &impl Abort,
    alloc: Global,
    circuit: &Circuit<Sample>,
    first: Bit,
    rest: &str,
) -> Result<(), Fail> {
    let (second, rest) = rest.split_once(' ').ok_or("bit")?;
    let (until, rest) = rest.split_once(' ').ok_or("until")?;
    let (most, settling) = rest.split_once(' ').ok_or("limit")?;
    let bits = (first, bit_of(second));
    let found = settling_of(rt, alloc, circuit, bits, number(until)?, limit(most)?)?;
    assert_eq!(rt; found, settling_from(settling)?);
    Ok(())
}

// Whether the table of the rows has these lines, and stops there.
fn table(rt: &impl Abort, alloc: Global, bench: &Bench, rest: &str) -> Result<(), Fail> {
    let (most, rest) = rest.split_once(' ').ok_or("limit")?;
    let (stop, rest) = rest.split_once(' ').unwrap_or((rest, ""));
    let mut lines = Vec::new(alloc);
    for line in rest.split(' ') {
        if !line.is_empty() {
            lines.push(line_of(line)?)?;
        }
    }
    let rows = bench.rows.as_slice();
    let stop = stop_of(stop)?;
    expect_table(rt, alloc, &bench.circuit, rows, limit(most)?, &lines, stop)
}

fn line_of(text: &str) -> Result<(Bit, u64, Ticks), Fail> {
    let (output, rest) = text.split_once(',').ok_or("line")?;
    match rest.split_once(',') {
        None => Ok((bit_of(output), number(rest)?, None)),
        Some((settle, ticks)) => {
            let (rise, fall) = ticks.split_once(',').ok_or("ticks")?;
            let ticks = (number(rise)?, number(fall)?);
            Ok((bit_of(output), number(settle)?, Some(ticks)))
        }
    }
}

fn stop_of(text: &str) -> Result<Option<(u64, Phase)>, Fail> {
    match text.split_once(':') {
        None => Ok(None),
        Some((row, "settle")) => Ok(Some((number(row)?, Phase::Settle))),
        Some((row, _)) => Ok(Some((number(row)?, Phase::Rise))),
    }
}

fn nets(alloc: Global, text: &str) -> Result<Vec<u32>, Fail> {
    let mut nets = Vec::new(alloc);
    for net in text.split(' ') {
        if !net.is_empty() {
            nets.push(net.parse::<u32>().ok().ok_or("net")?)?;
        }
    }
    Ok(nets)
}

fn number(text: &str) -> Result<u64, Fail> {
    let number = text.parse::<u64>().ok().ok_or("number")?;
    Ok(number)
}

fn limit(text: &str) -> Result<u32, Fail> {
    let limit = text.parse::<u32>().ok().ok_or("limit")?;
    Ok(limit)
}

// The bits of a text in its order; none of `-`.
fn bits_of(alloc: Global, text: &str) -> Result<Vec<Bit>, Fail> {
    let mut bits = Vec::new(alloc);
    for byte in text.as_bytes() {
        if *byte != b'-' {
            bits.push(bit_of_byte(*byte))?;
        }
    }
    Ok(bits)
}

fn bit_of(text: &str) -> Bit {
    match text.as_bytes() {
        [byte] => bit_of_byte(*byte),
        _ => Bit::Error,
    }
}

fn bit_of_byte(byte: u8) -> Bit {
    match byte {
        b'0' => Bit::Zero,
        b'1' => Bit::One,
        b'x' => Bit::Unknown,
        _ => Bit::Error,
    }
}
