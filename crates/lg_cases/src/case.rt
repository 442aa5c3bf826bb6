//! A case: what `run` is given, and what it must answer.

use lg_io::{MemFiles, MemSink};
use lg_run::run;
use std::alloc::Global;
use std::io;

/// How many bytes more than it must take a sink has room for.
const SPARE: usize = 4096;

/// What `run` is given, and what it must answer.
#[derive(Debug, Drop)]
pub struct Case {
    pub name: String,
    pub words: Vec<String>,
    /// Contents by name.
    pub files: Vec<(String, Vec<u8>)>,
    /// The numbers of the calls that fail.
    pub failing_reads: Vec<u64>,
    pub failing_writes: Vec<u64>,
    /// How many bytes the output takes at a call.
    pub piece: usize,
    pub status: u8,
    pub out: Vec<u8>,
    pub err: Vec<u8>,
}

impl Case {
    /// A case of this name, of the words `export p.circ`, which must write nothing and end with 0.
    pub fn new(alloc: Global, name: &str) -> io::Result<Case> {
        let mut words = Vec::new(alloc);
        words.push(String::from_str(alloc, "export")?)?;
        words.push(String::from_str(alloc, "p.circ")?)?;
        Ok(Case {
            name: String::from_str(alloc, name)?,
            words,
            files: Vec::new(alloc),
            failing_reads: Vec::new(alloc),
            failing_writes: Vec::new(alloc),
            piece: 64,
            status: 0,
            out: Vec::new(alloc),
            err: Vec::new(alloc),
        })
    }

    /// The case must end with this status, and say this line.
    pub fn stops(&mut self, alloc: Global, status: u8, start: &str, rest: &str) -> io::Result<()> {
        self.status = status;
        let line = format!(in alloc; "lg: {start}{rest}\n")?;
        self.err.extend_from_slice(line.as_bytes())?;
        Ok(())
    }
}

/// What `run` answers otherwise than the case says, as lines; no text where nothing differs.
pub fn differences(alloc: Global, case: &Case) -> io::Result<String> {
    let mut files = MemFiles::new(case.files.clone()?, case.failing_reads.clone()?);
    let mut out = sink(
        alloc,
        case.piece,
        case.out.len(),
        case.failing_writes.clone()?,
    )?;
    let mut err = sink(alloc, 64, case.err.len(), Vec::new(alloc))?;
    let ended = run(alloc, case.words.as_slice(), &mut files, &mut out, &mut err).code();
    let mut told = String::new(alloc);
    if ended != case.status {
        let line = format!(in alloc; "  {}: status {ended} for {}\n", case.name, case.status)?;
        told.push_str(line.as_str())?;
    }
    tell(
        alloc,
        &mut told,
        case,
        "output",
        out.taken(),
        case.out.as_slice(),
    )?;
    tell(
        alloc,
        &mut told,
        case,
        "error",
        err.taken(),
        case.err.as_slice(),
    )?;
    Ok(told)
}

// Tells two texts where they differ.
fn tell(
    alloc: Global,
    told: &mut String,
    case: &Case,
    what: &str,
    got: &[u8],
    want: &[u8],
) -> io::Result<()> {
    if got != want {
        let got = String::from_utf8_lossy(alloc, got)?;
        let want = String::from_utf8_lossy(alloc, want)?;
        let line = format!(in alloc; "  {}: {what} {got:?} for {want:?}\n", case.name)?;
        told.push_str(line.as_str())?;
    }
    Ok(())
}

// A sink for a text of this length, whose calls of these numbers fail.
fn sink(alloc: Global, piece: usize, length: usize, fails: Vec<u64>) -> io::Result<MemSink> {
    let mut sink = MemSink::new(alloc, piece.max(1), fails);
    match sink.reserve(length.saturating_add(SPARE)) {
        Ok(()) => Ok(sink),
        Err(_) => Err(io::Error::from(io::ErrorKind::OutOfMemory)),
    }
}
