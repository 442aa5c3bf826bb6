//! Tests of state kinds and vectors that are more than a row of values, on values that a person worked out.
#![tactic(auto)]

#[cfg(test)]
mod memory;
#[cfg(test)]
mod vectors;
