//! A sink in memory, whose calls fail where a test says so.

ghost use Rattle.std.specs.Prelude.{◌≡◌, ◌<◌, ◌≤◌, ◌↔◌, ◌⊎◌, ◌-◌, ◌++◌, [], Some, min, max, length, IfOk, IsErr, IsOk, OnOk, OnErr, Contains};
ghost use Rattle.lg_io.specs.Fault.{next_count};
ghost use Rattle.lg_io.specs.Sink.{accepted, faults_after_write};

use crate::schedule::Schedule;
use crate::{Memory, Sink, SinkFault};
use std::alloc::Global;
use std::marker::Model;

/// A sink in memory: it takes at most so many bytes at a call, and only while there is room.
///
/// Calls are numbered from 0, and fail where they were said to. The number of the next call stays
/// at the last value of 64 bits, and so does the count of faults.
#[derive(Debug, Drop)]
pub struct MemSink {
    taken: Vec<u8>,
    room: usize,
    piece: usize,
    schedule: Schedule,
}

impl Model for MemSink {
    ghost use Rattle.std.specs.Prelude.{◌<◌, ◌≤◌, ◌+◌, vec_len, vec_capacity};
    ghost use Rattle.lg_io.specs.MemSink.{SinkState};

    ghost Value = { SinkState };

    ghost view = { λ sink. record {
      taken = sink.taken.items;
      room = sink.room;
      piece = sink.piece;
      fails = sink.schedule.fails.items;
      calls = sink.schedule.calls;
      faults = sink.schedule.faults;
    } };

    ghost invariant = { λ sink.
        (0 < sink.piece) × (vec_len sink.taken + sink.room ≤ vec_capacity sink.taken) };
}

impl MemSink {
    /// A sink with no room yet, which takes at most `piece` bytes at a call, and whose calls of
    /// these numbers fail.
    pub fn new(alloc: Global, piece: usize, fails: Vec<u64>) -> MemSink
        requires { 0 < piece }
        ensures { result ≡ record {
          taken = [];
          room = 0;
          piece = piece;
          fails = fails.items;
          calls = 0;
          faults = 0;
        } }
    {
        MemSink {
            taken: Vec::new(alloc),
            room: 0,
            piece,
            schedule: Schedule::new(fails),
        }
    }

    /// Makes room for `n` bytes more, so that no write asks for memory.
    ///
    /// `Memory`: there was none, and the sink is as it was.
    pub fn reserve(&mut self, n: usize) -> Result<(), Memory>
        ensures ok { OnOk result (self.new ≡ record self.old { room = max self.old.room n }) }
        ensures err { OnErr result (self.new ≡ self.old) }
        ensures enough { n ≤ self.old.room → IsOk result }
    {
        self.taken.reserve(n)?;
        self.room = self.room.max(n);
        Ok(())
    }

    /// The bytes taken so far.
    pub fn taken(&self) -> &[u8]
        ensures { result.now ≡ self.now.taken }
    {
        &self.taken
    }

    /// How many calls have failed.
    pub fn faults(&self) -> u64
        ensures { result ≡ self.now.faults }
    {
        self.schedule.faults
    }
}

impl Sink for MemSink {
    ghost seen = { λ sink. record { taken = Some sink.taken; faults = sink.faults } };

    /// As the trait says. A call also fails where there is too little room for what it would take.
    fn write(&mut self, bytes: &[u8]) -> Result<usize, SinkFault>
        ensures count { IfOk result (λ n. n ≡ min self.old.piece (length bytes.now)) }
        ensures some { 0 < length bytes.now → IfOk result (λ n. 0 < n) }
        ensures fails_at { IsErr result ↔ (Contains self.old.fails self.old.calls
            ⊎ (self.old.room < min self.old.piece (length bytes.now))) }
        ensures never_falls { self.old.faults ≤ self.new.faults }
        ensures counted { self.new ≡ record self.old {
          taken = self.old.taken ++ accepted result bytes.now;
          room = self.old.room - length (accepted result bytes.now);
          calls = next_count self.old.calls;
          faults = faults_after_write self.old.faults result;
        } }
    {
        let n = self.piece.min(bytes.len());
        if self.schedule.next_fails(n > self.room) {
            return Err(SinkFault::Failed);
        }
        self.taken.extend_from_slice(&bytes[..n]).unwrap();
        self.room -= n;
        Ok(n)
    }
}
