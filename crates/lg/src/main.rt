//! `lg`: the workbench for the circuits that digital design classes draw; it obeys its words.
#![tactic(auto)]

use lg_io::{HostFiles, StdSink};
use lg_run::{Stop, run};
use std::env;
use std::io::ErrorKind;
use std::process::ExitCode;

fn main(rt: HostRuntime) -> ExitCode {
    let mut err = StdSink::new(rt.stderr());
    let status = match command_words(&rt) {
        Ok(words) => {
            let mut out = StdSink::new(rt.stdout());
            let alloc = rt.alloc();
            let mut files = HostFiles::new(rt);
            run(alloc, words.as_slice(), &mut files, &mut out, &mut err)
        }
        Err(stop) => stop.end("", &mut err),
    };
    ExitCode::from(status.code())
}

// The words behind the program's name. A word that is no text is no command's.
fn command_words(rt: &HostRuntime) -> Result<Vec<String>, Stop> {
    match env::args(rt) {
        Ok(args) => args.skip(1).collect(rt.alloc()).map_err(|_| Stop::Memory),
        Err(error) if error.kind() == ErrorKind::OutOfMemory => Err(Stop::Memory),
        Err(_) => Err(Stop::Usage),
    }
}
