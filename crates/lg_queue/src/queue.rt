//! A queue of pending outputs: a circle of buckets, one for each instant.

ghost use Rattle.std.specs.Prelude.{◌≡◌, ℕ, ◌+◌, ◌^◌, ◌<◌, ◌≤◌, [], sum, slice_index, IfOk};
ghost use Rattle.lg_queue.specs.Numbering.{IsOutput};
ghost use Rattle.lg_queue.specs.Pending.{IsPending, IsTaken, first_instant, nothing_at, with_item};

use crate::buckets::first_busy;
use crate::memory::Memory;
use crate::numbers::Numbers;
use crate::outputs::Outputs;
use std::alloc::Global;
use std::collections::VecDeque;
use std::marker::Model;

/// Pending outputs of parts: which output changes at which instant. In a contract it is the list of its items, the
/// triples of an instant, a part and one of its outputs, in ascending order and without an item twice, and the instant
/// that it stands at. Its room is made by `new`.
#[derive(Drop)]
pub struct Queue {
    instant: u64,
    outputs: Outputs,
    // the outputs that are pending at `instant`, at the instant after it, and so on
    buckets: VecDeque<Numbers>,
}

impl Model for Queue {
    ghost use Rattle.lg_queue.specs.Pending.{Pending};

    ghost Value = { Pending };

    ghost use Rattle.lg_queue.specs.Kept.{IsQueue, pending_of};

    ghost view = { pending_of };

    ghost invariant = { IsQueue };
}

impl Queue {
    /// The empty queue at instant 0, for parts of which each has so many outputs, at most 1,048,576 in all. It holds
    /// items up to `span` instants ahead, which is 1 to 255. `Memory`: there was none.
    pub fn new(alloc: Global, outputs: &[u32], span: u32) -> Result<Queue, Memory>
        requires span { (1 ≤ span) × (span ≤ 255) }
        requires outputs { sum outputs.now ≤ 1048576 }
        ensures { IfOk result (λ queue. queue ≡ record { current = 0; span = span; outputs = outputs.now; items = [] }) }
    {
        let outputs = Outputs::new(alloc, outputs)?;
        let circle = span as usize + 1;
        let mut buckets = VecDeque::with_capacity(alloc, circle)?;
        for _ in 0..circle {
            buckets.push_back(Numbers::new(alloc, outputs.total())?)?;
        }
        Ok(Queue {
            instant: 0,
            outputs,
            buckets,
        })
    }

    /// The instant that the queue stands at: no item is earlier, and none is more than the span later.
    pub fn now(&self) -> u64
        ensures instant { result ≡ self.now.current }
        ensures pending { IsPending self.now }
    {
        self.instant
    }

    /// Puts an item in, where it is not there already. The part has the output, and the instant is neither before now
    /// nor more than the span after it.
    pub fn put(&mut self, instant: u64, part: u32, output: u32)
        requires output { IsOutput self.old.outputs part output }
        requires instant { (self.old.current ≤ instant) × (instant ≤ self.old.current + self.old.span) }
        ensures { self.new ≡ with_item (instant, part, output) self.old }
    {
        let number = self.outputs.number(part, output);
        let ahead = (instant - self.instant) as usize;
        self.buckets[ahead].insert(number);
    }

    /// The instant of the first item. `None`: there is no item.
    pub fn first(&self) -> Option<u64>
        ensures { result ≡ first_instant self.now.items }
    {
        let ahead = first_busy(&self.buckets)?;
        Some(self.instant + ahead as u64)
    }

    /// Takes the first item out, and stands at its instant from then on. `None`: there is no item.
    pub fn take_first(&mut self) -> Option<(u64, u32, u32)>
        ensures item { IsTaken self.old result self.new }
        ensures outputs { self.new.outputs ≡ self.old.outputs }
        ensures span { self.new.span ≡ self.old.span }
    {
        let ahead = first_busy(&self.buckets)?;
        self.instant += ahead as u64;
        self.buckets.rotate_left(ahead);
        let number = self.buckets[0].take_least();
        let (part, output) = self.outputs.place(number);
        Some((self.instant, part as u32, output))
    }

    /// Takes all items out, and stands at an instant from then on. The instant and the span sum to less than 2^64.
    pub fn clear(&mut self, instant: u64)
        requires { instant + self.old.span < 2 ^ 64 }
        ensures { self.new ≡ nothing_at instant self.old }
    {
        while let Some(_) = self.take_first() {}
        self.instant = instant;
    }
}
