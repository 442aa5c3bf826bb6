//! Tests of modules: their text, the equations behind them, and what a caller may ask of one.
#![tactic(auto)]

#[cfg(test)]
mod verilog;
#[cfg(test)]
mod vmachine;
#[cfg(test)]
mod vmeaning;
