//! Runs the cases of script files over the top call `run`, with files and sinks in memory, and says which answer otherwise.
#![tactic(auto)]

mod case;
mod script;

use case::{Case, differences};
use lg_io::{Files, HostFiles};
use script::read_script;
use std::alloc::Global;
use std::{env, io};

/// How many bytes a script has at most.
const GREATEST_SCRIPT: usize = 1 << 24;

fn main(rt: HostRuntime) -> io::Result<()> {
    let alloc = rt.alloc();
    let names: Vec<String> = env::args(&rt)?.skip(1).collect(alloc)?;
    let mut files = HostFiles::new(&rt);
    for name in &names {
        let text = match files.read(alloc, name.as_str(), GREATEST_SCRIPT) {
            Ok(bytes) => String::from_utf8_lossy(alloc, bytes.as_slice())?,
            Err(_) => {
                println!(rt; "{name}: cannot be read")?;
                continue;
            }
        };
        let report = report(alloc, text.as_str())?;
        print!(rt; "{name}: {report}")?;
    }
    Ok(())
}

// How many cases a script has, and a line for each that answers otherwise.
fn report(alloc: Global, text: &str) -> io::Result<String> {
    let cases = match read_script(alloc, text)? {
        Ok(cases) => cases,
        Err(line) => return Ok(format!(in alloc; "line {line} is out of form\n")?),
    };
    let mut told = String::new(alloc);
    let mut differ = 0_usize;
    for case in &cases {
        let said = differences(alloc, case)?;
        if !said.is_empty() {
            differ = differ.saturating_add(1);
            told.push_str(said.as_str())?;
        }
    }
    Ok(format!(in alloc; "{} cases, {differ} differ\n{told}", cases.len())?)
}
