//! Runs the cases of script files over the crates of values, and says which answer otherwise.
#![tactic(auto)]

mod answer;
mod arith;
mod bits;
mod call;
mod flip_flops;
mod gates;
mod plexers;
mod registers;
mod text;
mod texts;
mod vectors;
mod words;

use answer::Answer;
use call::{Call, read_case};
use lg_io::{Files, HostFiles};
use std::alloc::Global;
use std::{env, io};
use texts::told;

/// How many bytes a script has at most.
const GREATEST_SCRIPT: usize = 1 << 24;

fn main(rt: HostRuntime) -> io::Result<()> {
    let alloc = rt.alloc();
    let names: Vec<String> = env::args(&rt)?.skip(1).collect(alloc)?;
    let mut files = HostFiles::new(&rt);
    for name in &names {
        let text = match files.read(alloc, name.as_str(), GREATEST_SCRIPT) {
            Ok(bytes) => String::from_utf8_lossy(alloc, bytes.as_slice())?,
            Err(_) => {
                println!(rt; "{name}: cannot be read")?;
                continue;
            }
        };
        let report = report(alloc, text.as_str())?;
        print!(rt; "{name}: {report}")?;
    }
    Ok(())
}

// How many cases a script has, and a line for each that answers otherwise or is out of form.
fn report(alloc: Global, text: &str) -> io::Result<String> {
    let mut told = String::new(alloc);
    let mut cases = 0_usize;
    let mut differ = 0_usize;
    for line in text.lines() {
        if line.is_empty() || line.starts_with('#') {
            continue;
        }
        cases = cases.saturating_add(1);
        let said = difference(alloc, line)?;
        if !said.is_empty() {
            differ = differ.saturating_add(1);
            told.push_str(said.as_str())?;
        }
    }
    Ok(format!(in alloc; "{cases} cases, {differ} differ\n{told}")?)
}

// What a line's call answers otherwise than the line says, as a line; no text where nothing differs.
fn difference(alloc: Global, line: &str) -> io::Result<String> {
    if let Some((call, want)) = line.split_once(" => ") {
        return text_difference(alloc, call, want);
    }
    let Some((call, want)) = read_case(alloc, line)? else {
        return Ok(format!(in alloc; "  {line}: out of form\n")?);
    };
    match answer_to(&call) {
        None => Ok(format!(in alloc; "  {line}: out of form\n")?),
        Some(got) if got.is(want.as_slice()) => Ok(String::new(alloc)),
        Some(got) => Ok(format!(in alloc; "  {line}: got {}\n", got.text(alloc)?)?),
    }
}

// What a call on a text answers otherwise than it must.
fn text_difference(alloc: Global, call: &str, want: &str) -> io::Result<String> {
    match told(alloc, call)? {
        None => Ok(format!(in alloc; "  {call}: out of form\n")?),
        Some(got) if got.as_str() == want => Ok(String::new(alloc)),
        Some(got) => Ok(format!(in alloc; "  {call} => {want}: got {got}\n")?),
    }
}

// What a call answers, if some crate has it in this form.
fn answer_to(call: &Call) -> Option<Answer> {
    words::answer(call)
        .or(arith::answer(call))
        .or(gates::answer(call))
        .or(plexers::answer(call))
        .or(flip_flops::answer(call))
        .or(registers::answer(call))
}
