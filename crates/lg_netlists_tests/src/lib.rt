//! Tests of netlists and of the modules that are laid out for them, on circuits that a person worked out.
#![tactic(auto)]

#[cfg(test)]
mod chains;
#[cfg(test)]
mod export;
#[cfg(test)]
mod flatten;
#[cfg(test)]
mod names;
#[cfg(test)]
mod samples;
