//! Buckets of numbers, one for each instant from some one on.

ghost use Rattle.std.specs.Prelude.{IfSome, IfNone};
ghost use Rattle.lg_queue.specs.Buckets.{AreIdle, IsFirstBusy};

use crate::numbers::Numbers;
use std::collections::VecDeque;

// How far ahead the first bucket is that has a number.
pub(crate) fn first_busy(buckets: &VecDeque<Numbers>) -> Option<usize>
    ensures none { IfNone result (AreIdle buckets.now.items) }
    ensures some { IfSome result (IsFirstBusy buckets.now.items) }
{
    for ahead in 0..buckets.len() {
        if !buckets[ahead].is_empty() {
            return Some(ahead);
        }
    }
    None
}
