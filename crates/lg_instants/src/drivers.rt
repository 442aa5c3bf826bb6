//! What drives a net.

ghost use Rattle.std.specs.Prelude.{◌≡◌, ◌==◌, ℕ, map, filter, fold, replicate, length};
ghost use Rattle.lg_value.specs.Bit.{join_bits};
ghost use Rattle.lg_value.specs.declared.bit.Bit.{Bit as Value};
ghost use Rattle.lg_timing.specs.Circuit.{Port as Ends};
ghost use Rattle.lg_timing.specs.Instant.{bits_on, words_on};
ghost use Rattle.lg_instants.specs.Plain.{circuit_of, parts_on, bit_from};

use crate::{Behaviour, Circuit, Nets, Port, Stimulus, Words};
use lg_value::{Bit, Word, join_bits};

// A bit joined with those that a word puts on a net.
fn join_word(bit: Bit, net: u32, nets: &[u32], word: &Word) -> Bit
    ensures { result ≡ fold join_bits bit (bits_on net nets.now word.now) }
{
    let mut joined = bit;
    for i in 0..nets.len() {
        if i >= word.width() as usize {
            return joined;
        }
        if nets[i] == net {
            joined = join_bits(joined, word.bit(i as u32));
        }
    }
    joined
}

// A bit joined with those that words on some ports put on a net.
fn join_ports(bit: Bit, net: u32, ports: &[Port], words: &[Word]) -> Bit
    ensures { result ≡ fold join_bits bit
        (words_on net (map (λ (port : Ends). port.nets) ports.now) words.now) }
{
    let mut joined = bit;
    for i in 0..ports.len() {
        if i >= words.len() {
            return joined;
        }
        joined = join_word(joined, net, ports[i].nets(), &words[i]);
    }
    joined
}

// A bit joined with those that words on some pins put on a net.
fn join_pins(bit: Bit, net: u32, pins: &[Nets], words: &[Word]) -> Bit
    ensures { result ≡ fold join_bits bit (words_on net pins.now words.now) }
{
    let mut joined = bit;
    for i in 0..pins.len() {
        if i >= words.len() {
            return joined;
        }
        joined = join_word(joined, net, pins[i].nets(), &words[i]);
    }
    joined
}

// A bit joined with those that parts with these output words put on a net.
fn join_parts<P: Behaviour>(bit: Bit, net: u32, parts: &[P], outputs: &[Words]) -> Bit
    ensures { result ≡ fold join_bits bit (parts_on net (map P.meaning parts.now) outputs.now) }
{
    let mut joined = bit;
    for i in 0..parts.len() {
        if i >= outputs.len() {
            return joined;
        }
        joined = join_ports(joined, net, parts[i].outputs(), outputs[i].words());
    }
    joined
}

// A bit joined with those that clocks put on a net.
fn join_clocks(bit: Bit, net: u32, clocks: &[u32], clock: Bit) -> Bit
    ensures { result ≡ fold join_bits bit
        (bits_on net clocks.now (replicate (length clocks.now) clock)) }
{
    let mut joined = bit;
    for n in clocks {
        if *n == net {
            joined = join_bits(joined, clock);
        }
    }
    joined
}

// The bits that a net is pulled to, joined.
fn pull_on(pulls: &[(u32, Bit)], net: u32) -> Bit
    ensures { result ≡ fold join_bits Bit.Unknown
        (map (λ (p : ℕ × Value). p.1) (filter (λ (p : ℕ × Value). p.0 == net) pulls.now)) }
{
    let mut joined = Bit::Unknown;
    for (n, bit) in pulls {
        if *n == net {
            joined = join_bits(joined, *bit);
        }
    }
    joined
}

/// The bit of a net, from the output words of every part.
pub(crate) fn net_bit<P: Behaviour>(
    circuit: &Circuit<P>,
    stimulus: &Stimulus,
    outputs: &[Words],
    net: u32,
) -> Bit
    ensures { result ≡
        bit_from (circuit_of P.meaning circuit.now) stimulus.now outputs.now net }
{
    let parts = join_parts(Bit::Unknown, net, &circuit.parts, outputs);
    let pins = join_pins(parts, net, &circuit.pins, stimulus.words().words());
    let driven = join_clocks(pins, net, circuit.clocks.nets(), stimulus.clock());
    match driven {
        Bit::Unknown => pull_on(&circuit.pulls, net),
        _ => driven,
    }
}
