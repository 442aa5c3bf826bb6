//! Files and sinks as traits, whose faults are counted and can be made in a test.
#![tactic(auto)]

mod fault;
mod files;
mod host_files;
mod mem_files;
mod mem_sink;
mod schedule;
mod sink;
mod std_sink;

pub use fault::{FileFault, Memory, SinkFault};
pub use files::Files;
pub use host_files::HostFiles;
pub use mem_files::MemFiles;
pub use mem_sink::MemSink;
pub use sink::{Sink, write_all};
pub use std_sink::StdSink;
