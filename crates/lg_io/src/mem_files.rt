//! Contents in memory, whose calls fail where a test says so.

ghost use Rattle.std.specs.Prelude.{◌≡◌, ◌≤◌, ◌↔◌, Some, map, length, IfOk, IsSomeAnd, IsErrOf, Contains, option_copied, find, bytes_eq, string_bytes};
ghost use Rattle.lg_io.specs.Fault.{next_count};
ghost use Rattle.lg_io.specs.Files.{IsReadAnswer, faults_after_read};
ghost use Rattle.lg_io.specs.MemFiles.{content_of, named_bytes};

use crate::schedule::Schedule;
use crate::{FileFault, Files};
use std::alloc::Global;
use std::marker::Model;

/// Contents in memory by name. The first entry of a name counts.
///
/// Calls are numbered from 0, and fail where they were said to. The number of the next call stays
/// at the last value of 64 bits, and so does the count of faults.
#[derive(Debug, Drop)]
pub struct MemFiles {
    entries: Vec<(String, Vec<u8>)>,
    schedule: Schedule,
}

impl Model for MemFiles {
    ghost use Rattle.std.specs.Prelude.{map};
    ghost use Rattle.lg_io.specs.MemFiles.{FilesState, named_bytes};

    ghost Value = { FilesState };

    ghost view = { λ files. record {
      entries = map named_bytes files.entries.items;
      fails = files.schedule.fails.items;
      calls = files.schedule.calls;
      faults = files.schedule.faults;
    } };
}

impl MemFiles {
    /// Contents under their names, and the numbers of the calls that fail.
    pub fn new(entries: Vec<(String, Vec<u8>)>, fails: Vec<u64>) -> MemFiles
        ensures { result ≡ record {
          entries = map named_bytes entries.items;
          fails = fails.items;
          calls = 0;
          faults = 0;
        } }
    {
        MemFiles {
            entries,
            schedule: Schedule::new(fails),
        }
    }

    /// How many calls have failed.
    pub fn faults(&self) -> u64
        ensures { result ≡ self.now.faults }
    {
        self.schedule.faults
    }
}

impl Files for MemFiles {
    ghost seen = { λ files. record { held = Some (content_of files.entries); faults = files.faults } };

    /// As the trait says. A call that fails is not looked up.
    fn read(&mut self, alloc: Global, name: &str, most: usize) -> Result<Vec<u8>, FileFault>
        ensures answer { IsReadAnswer (content_of self.old.entries name.now) most result }
        ensures within { IfOk result (λ bytes. length bytes.items ≤ most) }
        ensures fails_at { IsErrOf result FileFault.Failed ↔ Contains self.old.fails self.old.calls }
        ensures memory { IsErrOf result FileFault.Memory →
            IsSomeAnd (content_of self.old.entries name.now) (λ bytes. length bytes ≤ most) }
        ensures never_falls { self.old.faults ≤ self.new.faults }
        ensures counted { self.new ≡ record self.old {
          calls = next_count self.old.calls;
          faults = faults_after_read self.old.faults result;
        } }
    {
        if self.schedule.next_fails(false) {
            return Err(FileFault::Failed);
        }
        let content = content_under(&self.entries, name).ok_or(FileFault::Missing)?;
        if content.len() > most {
            return Err(FileFault::TooLong);
        }
        Ok(content.to_vec(alloc)?)
    }
}

fn content_under<'a>(entries: &'a [(String, Vec<u8>)], name: &str) -> Option<&'a [u8]>
    ensures { option_copied result ≡ content_of (map named_bytes entries.now) name.now }
{
    let (_, content) = entry_named(entries, name)?;
    Some(content)
}

fn entry_named<'a>(entries: &'a [(String, Vec<u8>)], name: &str) -> Option<&'a (String, Vec<u8>)>
    ensures { option_copied result ≡
        find (λ entry. bytes_eq (string_bytes entry.0) name.now) entries.now }
{
    entries.iter().find(|entry| entry.0.as_str() == name)
}
