//! What the gates and plexers of a Logisim-evolution circuit answer to the words at their inputs.
#![tactic(auto)]

mod encoder;
mod gates;
mod law;
mod outputs;
mod plexers;
mod selector;

pub use crate::encoder::priority;
pub use crate::gates::{GateKind, gate};
pub use crate::law::{
    defined_gives_defined, greatest_one_is_greatest, inverted_kinds_invert, one_and_odd_agree,
    order_of_inputs_is_free, outputs_have_their_width,
};
pub use crate::outputs::{OutForm, buffer, controlled, not, shape};
pub use crate::plexers::{enabled, pick, spread};
pub use crate::selector::select_group;
