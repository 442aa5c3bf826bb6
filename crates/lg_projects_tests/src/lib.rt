//! Tests of project texts and of joined ports, on drawings that a person worked out.
#![tactic(auto)]

#[cfg(test)]
mod circ;
#[cfg(test)]
mod nets;
