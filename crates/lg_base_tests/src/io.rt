//! What the objects answer when they are run.

use lg_io::{FileFault, Files, HostFiles, MemFiles, MemSink, Sink, SinkFault, StdSink, write_all};
use std::alloc::{AllocError, Global};
use std::fs;
use std::io::{self, ErrorKind, Write};
use std::test::Fail;

/// Whether the answer is this one.
fn is_answer(answer: &Result<Vec<u8>, FileFault>, expected: Result<&str, FileFault>) -> bool {
    match (answer, expected) {
        (Ok(bytes), Ok(text)) => bytes.as_slice() == text.as_bytes(),
        (Err(fault), Err(other)) => *fault == other,
        _ => false,
    }
}

fn library(alloc: Global) -> Result<Vec<(String, Vec<u8>)>, AllocError> {
    let mut entries = Vec::new(alloc);
    for (name, content) in [
        ("gate.circ", "and"),
        ("gate.circ", "or"),
        ("adder.circ", "half adder"),
        ("", "no name"),
        ("empty.circ", ""),
    ] {
        let entry = (
            String::from_str(alloc, name)?,
            content.as_bytes().to_vec(alloc)?,
        );
        entries.push(entry)?;
    }
    Ok(entries)
}

#[test]
fn contents_in_memory(rt: HostRuntime) -> Result<(), Fail> {
    let alloc = rt.alloc();
    let mut files = MemFiles::new(library(alloc)?, vec![in alloc; 6, 7]?);
    for (name, most, expected) in [
        ("gate.circ", 3, Ok("and")),
        ("gate.circ", 2, Err(FileFault::TooLong)),
        ("gate", 100, Err(FileFault::Missing)),
        ("adder.circ", 10, Ok("half adder")),
        ("", 7, Ok("no name")),
        ("empty.circ", 0, Ok("")),
        ("gate.circ", 3, Err(FileFault::Failed)),
        ("nowhere", 3, Err(FileFault::Failed)),
        ("gate.circ", 3, Ok("and")),
    ] {
        let answer = files.read(alloc, name, most);
        assert!(rt;
            is_answer(&answer, expected),
            "{name} of at most {most} bytes"
        );
    }
    assert_eq!(rt; files.faults(), 2);
    Ok(())
}

#[test]
fn sink_in_pieces_of_sixteen(rt: HostRuntime) -> Result<(), Fail> {
    let alloc = rt.alloc();
    let mut sink = MemSink::new(alloc, 16, vec![in alloc; 1]?);
    let text = b"forty bytes, which are taken in pieces..";
    assert_eq!(rt; sink.reserve(text.len()), Ok(()));
    assert_eq!(rt; write_all(&mut sink, text), Err(SinkFault::Failed));
    assert_eq!(rt; sink.taken(), b"forty bytes, whi".as_slice());
    assert_eq!(rt; sink.faults(), 1);

    assert_eq!(rt; sink.reserve(24), Ok(()));
    assert_eq!(rt; write_all(&mut sink, b"ch are taken in pieces.."), Ok(()));
    assert_eq!(rt; sink.taken(), text.as_slice());

    assert_eq!(rt; write_all(&mut sink, b"no room"), Err(SinkFault::Failed));
    assert_eq!(rt; write_all(&mut sink, b""), Ok(()));
    assert_eq!(rt; sink.taken(), text.as_slice());
    assert_eq!(rt; sink.faults(), 2);
    Ok(())
}

#[test]
fn files_of_the_host(rt: HostRuntime) -> Result<(), Fail> {
    let alloc = rt.alloc();
    fs::write(&rt, "lg_io_half_adder.circ", "half adder")?;
    let mut files = HostFiles::new(&rt);
    for (name, most, expected) in [
        ("lg_io_half_adder.circ", 10, Ok("half adder")),
        ("lg_io_half_adder.circ", usize::MAX, Ok("half adder")),
        ("lg_io_half_adder.circ", 9, Err(FileFault::TooLong)),
        ("lg_io_half_adder.circ", 0, Err(FileFault::TooLong)),
        ("lg_io_nowhere.circ", 10, Err(FileFault::Missing)),
        ("lg_io_nowhere/gate.circ", 10, Err(FileFault::Missing)),
        (".", 10, Err(FileFault::Failed)),
    ] {
        let answer = files.read(alloc, name, most);
        assert!(rt;
            is_answer(&answer, expected),
            "{name} of at most {most} bytes"
        );
    }
    assert_eq!(rt; files.faults(), 1);
    fs::remove_file(&rt, "lg_io_half_adder.circ")?;
    Ok(())
}

/// A stream that takes five bytes, then four, then none, and refuses every later call.
#[derive(Drop)]
struct Failing {
    calls: usize,
}

impl Write for Failing {
    fn write(&mut self, bytes: &[u8]) -> io::Result<usize> {
        let call = self.calls;
        self.calls = call.saturating_add(1);
        match call {
            0 => Ok(bytes.len().min(5)),
            1 => Ok(bytes.len().min(4)),
            2 => Ok(0),
            _ => Err(io::Error::from(ErrorKind::BrokenPipe)),
        }
    }

    fn flush(&mut self) -> io::Result<()> {
        Ok(())
    }
}

#[test]
fn streams_as_sinks(rt: HostRuntime) -> Result<(), Fail> {
    let mut bytes = Vec::new(rt.alloc());
    let mut sink = StdSink::new(&mut bytes);
    assert_eq!(rt; write_all(&mut sink, b"sum and "), Ok(()));
    assert_eq!(rt; write_all(&mut sink, b"carry"), Ok(()));
    assert_eq!(rt; sink.faults(), 0);
    assert_eq!(rt; bytes.as_slice(), b"sum and carry".as_slice());

    let mut stream = Failing { calls: 0 };
    let mut sink = StdSink::new(&mut stream);
    for (text, expected, faults) in [
        ("sum", Ok(3), 0),
        ("and carry", Ok(4), 0),
        ("carry", Err(SinkFault::Failed), 1),
        ("carry", Err(SinkFault::Failed), 2),
    ] {
        assert_eq!(rt; sink.write(text.as_bytes()), expected, "{text}");
        assert_eq!(rt; sink.faults(), faults, "{text}");
    }
    assert_eq!(rt; stream.calls, 4);
    Ok(())
}
