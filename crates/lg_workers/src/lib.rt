#![tactic(auto)]

mod claims;
mod job;
mod law;
mod memory;
mod order;
mod rule;
mod run;
mod view;
mod work;

pub use crate::claims::{Claim, Claims};
pub use crate::job::{Gate, Job, Open};
pub use crate::law::{
    counters_stay_small, reached_tables_keep_the_rule, whole_lists_hold_each_job_once,
};
pub use crate::memory::Memory;
pub use crate::run::run_all;
pub use crate::view::{MOST_JOBS, MOST_SEATS};
