//! Answers put into the order of their jobs.

ghost use Rattle.std.specs.Prelude.{◌≡◌, ℕ, ◌<◌, ◌≢◌, length, map, replicate, slice_index_or, IfOk, None, Some};
ghost use Rattle.std.specs.List.{All};
ghost use Rattle.lg_workers.specs.Draws.{times};
ghost use Rattle.lg_workers.specs.Answers.{IsRight};

use crate::{Job, Memory};
use std::alloc::Global;

// Item i is the answer of job i. Each job has an answer.
pub(crate) fn in_order<J: Job>(
    alloc: Global,
    jobs: &[J],
    answers: Vec<(u32, J::Out)>,
) -> Result<Vec<J::Out>, Memory>
    requires right { All (IsRight J.answer jobs.now) answers.items }
    requires each { (i : ℕ) → i < length jobs.now → 0 < times i (map (λ it. it.0) answers.items) }
    ensures { IfOk result (λ all. all.items ≡ map J.answer jobs.now) }
{
    let mut slots = vacant(alloc, jobs.len())?;
    place(jobs, &mut slots, answers);
    unwrapped(alloc, slots)
}

fn vacant<T: Drop>(alloc: Global, count: usize) -> Result<Vec<Option<T>>, Memory>
    ensures { IfOk result (λ slots. slots.items ≡ replicate count None) }
{
    let mut slots = Vec::with_capacity(alloc, count)?;
    for _ in 0..count {
        slots.push(None)?;
    }
    Ok(slots)
}

// Puts each answer at its number.
fn place<J: Job>(jobs: &[J], slots: &mut Vec<Option<J::Out>>, mut answers: Vec<(u32, J::Out)>)
    requires room { length slots.old.items ≡ length jobs.now }
    requires right { All (IsRight J.answer jobs.now) answers.items }
    requires each { (i : ℕ) → i < length jobs.now → 0 < times i (map (λ it. it.0) answers.items) }
    ensures { slots.new.items ≡ map (λ job. Some (J.answer job)) jobs.now }
{
    while let Some((number, answer)) = answers.pop() {
        slots[number as usize] = Some(answer);
    }
}

// The answers of slots that are all filled.
fn unwrapped<T: Drop>(alloc: Global, slots: Vec<Option<T>>) -> Result<Vec<T>, Memory>
    requires { All (λ slot. slot ≢ None) slots.items }
    ensures { IfOk result (λ all. map (λ it. Some it) all.items ≡ slots.items) }
{
    let mut all = Vec::with_capacity(alloc, slots.len())?;
    for slot in slots {
        let Some(answer) = slot else { unreachable!() };
        all.push(answer)?;
    }
    Ok(all)
}
