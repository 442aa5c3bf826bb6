//! The attributes of components: names and values in lists.
#![tactic(auto)]

mod attrs;
mod pairs;

pub use attrs::Attrs;
pub use pairs::{is_among, names_differ, value_under};
