//! A plain program that computes what a circuit does in time, and keeps a configuration alone.
#![tactic(auto)]

mod circuit;
mod configuration;
mod drivers;
mod inputs;
mod part;
mod port;
mod run;
mod stimuli;
mod table;
mod well_formed;
mod words;

pub use circuit::{Circuit, Stimulus};
pub use configuration::{Configuration, Due, value_at};
pub use lg_timing::{Phase, Settling};
pub use part::Behaviour;
pub use port::{Nets, Port};
pub use run::{Outcome, evaluations_at, settle};
pub use table::{Line, Stop, Table, session};
pub use well_formed::is_well_formed;
pub use words::Words;
