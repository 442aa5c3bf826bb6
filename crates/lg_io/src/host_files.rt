//! The files of the system.

ghost use Rattle.std.specs.Prelude.{◌≡◌, ◌≤◌, Some, None, length, IfSome, IfOk};
ghost use Rattle.std.specs.IoError.{error_kind};
ghost use Rattle.lg_io.specs.Files.{IsReadAnswer, faults_after_read, fault_of};

use crate::{FileFault, Files};
use std::alloc::Global;
use std::io::{self, ErrorKind, Read};
use std::marker::Model;
use std::{fs, rt};

/// The files of a runtime, by their paths. In a contract it is the count of its faults, since none
/// can say what a file holds.
///
/// A read is a fault where the runtime refused it for another reason than a missing file or want of
/// memory. The count stays at the last value of 64 bits.
#[derive(Drop)]
pub struct HostFiles<R> {
    rt: R,
    faults: u64,
}

impl<R> Model for HostFiles<R> {
    ghost use Rattle.std.specs.Prelude.{ℕ};

    ghost Value = { ℕ };

    ghost view = { λ files. files.faults };
}

impl<R: rt::Files> HostFiles<R> {
    /// The files of this runtime, with no fault yet.
    pub fn new(rt: R) -> HostFiles<R>
        ensures { result ≡ 0 }
    {
        HostFiles { rt, faults: 0 }
    }

    /// How many reads have failed.
    pub fn faults(&self) -> u64
        ensures { result ≡ self.now }
    {
        self.faults
    }
}

impl<R: rt::Files> Files for HostFiles<R> {
    ghost seen = { λ faults. record { held = None; faults = faults } };

    /// As the trait says. A name is a path, and a directory under it is a fault.
    fn read(&mut self, alloc: Global, name: &str, most: usize) -> Result<Vec<u8>, FileFault>
        ensures within { IfOk result (λ bytes. length bytes.items ≤ most) }
        ensures counted { self.new ≡ faults_after_read self.old result }
        ensures never_falls { self.old ≤ self.new }
    {
        let answer = read_file(&self.rt, alloc, name, most);
        if matches!(answer, Err(FileFault::Failed)) {
            self.faults = self.faults.saturating_add(1);
        }
        answer
    }
}

fn read_file<R: rt::Files>(
    rt: &R,
    alloc: Global,
    name: &str,
    most: usize,
) -> Result<Vec<u8>, FileFault>
    ensures { IfOk result (λ bytes. length bytes.items ≤ most) }
{
    match fs::open(rt, name) {
        Ok(file) => read_source(alloc, file, most),
        Err(error) if error.kind() == ErrorKind::NotFound => Err(FileFault::Missing),
        Err(error) => Err(read_fault(error)),
    }
}

/// Reads a source to its end, if it has at most `most` bytes, and else one byte more.
fn read_source<S: Read + Drop>(alloc: Global, source: S, most: usize) -> Result<Vec<u8>, FileFault>
    ensures within { IfOk result (λ bytes. length bytes.items ≤ most) }
    ensures answer { IfSome (S.remaining source)
        (λ content. IsReadAnswer (Some content) most result) }
{
    let mut bytes = Vec::new(alloc);
    let limit = (most as u64).saturating_add(1);
    source
        .take(limit)
        .read_to_end(&mut bytes)
        .map_err(read_fault)?;
    if bytes.len() > most {
        return Err(FileFault::TooLong);
    }
    Ok(bytes)
}

fn read_fault(error: io::Error) -> FileFault
    ensures { result ≡ fault_of (error_kind error) }
{
    match error.kind() {
        ErrorKind::OutOfMemory => FileFault::Memory,
        _ => FileFault::Failed,
    }
}
