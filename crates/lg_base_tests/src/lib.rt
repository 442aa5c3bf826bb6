//! Tests of the crates at the base, on values and circuits that a person worked out.
#![tactic(auto)]

#[cfg(test)]
mod graph;
#[cfg(test)]
mod io;
#[cfg(test)]
mod queue;
#[cfg(test)]
mod text;
#[cfg(test)]
mod timing;
#[cfg(test)]
mod timing_circuits;
#[cfg(test)]
mod timing_samples;
#[cfg(test)]
mod timing_script;
#[cfg(test)]
mod workers;
