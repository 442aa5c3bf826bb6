//! Names of pins by their labels, and numbers of classes by first appearance.
#![tactic(auto)]

mod law;
mod names;
mod numbering;

pub use law::{labels_have_names, labels_have_numbers, one_naming, one_numbering};
pub use names::{LONGEST_NAME, name_of_label, pin_names};
pub use numbering::numbered;
