//! Tests of attributes, kinds and ports, on tables that a person worked out.
#![tactic(auto)]

#[cfg(test)]
mod attrs;
#[cfg(test)]
mod kinds;
#[cfg(test)]
mod parts;
#[cfg(test)]
mod shapes;
