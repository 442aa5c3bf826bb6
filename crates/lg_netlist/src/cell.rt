//! What a cell says of its ports.

ghost use Rattle.std.specs.Prelude.{◌≡◌, ◌≤◌, ◌<◌, IfOk};
ghost use Rattle.lg_netlist.specs.Cell.{delay_of, reads, loose_of, input_name, input_width, output_width};

use crate::netlist::Cell;
use lg_text::Text;
use std::alloc::{AllocError, Global};

/// What an input reads where nothing is attached to it.
#[derive(Clone, Copy, Debug, PartialEq, Eq)]
pub enum Loose {
    /// The input does not count, as for a gate.
    Ignored,
    /// Zeros.
    Zero,
    /// Ones.
    One,
    /// Unknown bits.
    Unknown,
}

impl Cell {
    /// How many instants after its inputs a cell shows its output: 1 to 255.
    pub fn delay(self) -> u32
        ensures value { result ≡ delay_of self }
        ensures least { 1 ≤ result }
        ensures most { result ≤ 255 }
    {
        match self {
            Cell::Not | Cell::And | Cell::Or => 1,
        }
    }

    /// Whether an output depends on an input.
    pub fn reads(self, _output: u32, _input: u32) -> bool
        ensures { result ≡ reads self _output _input }
    {
        match self {
            Cell::Not | Cell::And | Cell::Or => true,
        }
    }

    /// What an input reads where nothing is attached to it.
    pub fn loose(self, _input: u32) -> Loose
        ensures { result ≡ loose_of self _input }
    {
        match self {
            Cell::Not => Loose::Unknown,
            Cell::And | Cell::Or => Loose::Ignored,
        }
    }

    /// How many bits an input port has: 1 to 64.
    pub fn input_width(self, _input: u32) -> u32
        ensures value { result ≡ input_width self _input }
        ensures least { 1 ≤ result }
        ensures most { result ≤ 64 }
    {
        match self {
            Cell::Not | Cell::And | Cell::Or => 1,
        }
    }

    /// How many bits an output port has: 1 to 64.
    pub fn output_width(self, _output: u32) -> u32
        ensures value { result ≡ output_width self _output }
        ensures least { 1 ≤ result }
        ensures most { result ≤ 64 }
    {
        match self {
            Cell::Not | Cell::And | Cell::Or => 1,
        }
    }

    /// The name of an input port, as `in0`. The only error is want of memory.
    pub fn input_name(self, alloc: Global, input: u32) -> Result<Text, AllocError>
        ensures { IfOk result (λ name. name ≡ input_name self input) }
    {
        match self {
            Cell::Not => Text::copy_of(alloc, "in"),
            Cell::And | Cell::Or => Ok(Text::from_string(format!(in alloc; "in{input}")?)),
        }
    }
}
