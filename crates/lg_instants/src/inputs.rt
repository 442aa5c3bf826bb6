//! The words on nets, and on the inputs of parts.

ghost use Rattle.std.specs.Prelude.{◌≡◌, true, IfOk, map, length};
ghost use Rattle.std.specs.List.{list_all};
ghost use Rattle.lg_timing.specs.Instant.{unknown_words, word_at, input_words};
ghost use Rattle.lg_instants.specs.Plain.{IsWellFormed, circuit_of, is_width, is_port, bit_from, all_inputs};

use crate::drivers::net_bit;
use crate::{Behaviour, Circuit, Port, Stimulus, Words};
use lg_value::{Bit, Word};
use std::alloc::{AllocError, Global};

// An unknown word for each port.
pub(crate) fn unknown_words(alloc: Global, ports: &[Port]) -> Result<Vec<Word>, AllocError>
    requires { list_all is_port ports.now ≡ true }
    ensures { IfOk result (λ words. words.items ≡ unknown_words ports.now) }
{
    let mut words = Vec::new(alloc);
    for port in ports {
        words.push(Word::fill(port.width(), Bit::Unknown))?;
    }
    Ok(words)
}

// The word on some nets, of which there are 1 to 64.
pub(crate) fn word_on<P: Behaviour>(
    circuit: &Circuit<P>,
    stimulus: &Stimulus,
    outputs: &[Words],
    nets: &[u32],
) -> Word
    requires { is_width (length nets.now) ≡ true }
    ensures { result ≡ map (bit_from (circuit_of P.meaning circuit.now) stimulus.now outputs.now) nets.now }
{
    let mut word = Word::fill(1, net_bit(circuit, stimulus, outputs, nets[0]));
    for i in 1..nets.len() {
        word = word.glue(&Word::fill(1, net_bit(circuit, stimulus, outputs, nets[i])));
    }
    word
}

// The word on a port.
fn word_at<P: Behaviour>(
    circuit: &Circuit<P>,
    stimulus: &Stimulus,
    outputs: &[Words],
    port: &Port,
) -> Word
    requires { is_port port.now ≡ true }
    ensures { result ≡ word_at (bit_from (circuit_of P.meaning circuit.now) stimulus.now outputs.now) port.now.width port.now.nets }
{
    let nets = port.nets();
    if nets.is_empty() {
        Word::fill(port.width(), Bit::Unknown)
    } else {
        word_on(circuit, stimulus, outputs, nets)
    }
}

// The words on the inputs of a part.
fn input_words<P: Behaviour>(
    alloc: Global,
    circuit: &Circuit<P>,
    stimulus: &Stimulus,
    outputs: &[Words],
    part: &P,
) -> Result<Words, AllocError>
    requires { list_all is_port (P.meaning part.now).inputs ≡ true }
    ensures { IfOk result (λ words. words ≡ input_words (bit_from (circuit_of P.meaning circuit.now) stimulus.now outputs.now) (P.meaning part.now)) }
{
    let ports = part.inputs();
    let mut words = Vec::new(alloc);
    for port in ports {
        words.push(word_at(circuit, stimulus, outputs, port))?;
    }
    Ok(Words::new(words))
}

// The words on the inputs of every part.
pub(crate) fn all_inputs<P: Behaviour>(
    alloc: Global,
    circuit: &Circuit<P>,
    stimulus: &Stimulus,
    outputs: &[Words],
) -> Result<Vec<Words>, AllocError>
    requires { IsWellFormed (circuit_of P.meaning circuit.now) }
    ensures { IfOk result (λ inputs. inputs.items ≡
        all_inputs (circuit_of P.meaning circuit.now)
        (bit_from (circuit_of P.meaning circuit.now) stimulus.now outputs.now)) }
{
    let parts = circuit.parts.as_slice();
    let mut inputs = Vec::new(alloc);
    for i in 0..parts.len() {
        inputs.push(input_words(alloc, circuit, stimulus, outputs, &parts[i])?)?;
    }
    Ok(inputs)
}
