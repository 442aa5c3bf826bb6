//! Queues of a few outputs, obeyed step by step, and of as many outputs as there may be.

ghost use Rattle.std.specs.Prelude.{◌≡◌, ◌≤◌, sum};

use lg_queue::{Memory, Queue};
use std::alloc::Global;
use std::process::Abort;
use std::test::Fail;

// A call, and its answer.
#[derive(Clone, Copy)]
enum Step {
    Put(u64, u32, u32),
    First(Option<u64>),
    Take(Option<(u64, u32, u32)>),
    Now(u64),
    Clear(u64),
}

// Puts an item in that the queue can hold.
fn put(rt: &impl Abort, queue: &mut Queue, outputs: &[u32], span: u32, item: (u64, u32, u32))
    requires outputs { queue.old.outputs ≡ outputs.now }
    requires span { queue.old.span ≡ span }
    ensures outputs { queue.new.outputs ≡ queue.old.outputs }
    ensures span { queue.new.span ≡ queue.old.span }
{
    let (instant, part, output) = item;
    assert!(rt; (part as usize) < outputs.len());
    assert!(rt; output < outputs[part as usize]);
    let now = queue.now();
    assert!(rt; now <= instant);
    assert!(rt; instant - now <= u64::from(span));
    queue.put(instant, part, output);
}

// Stands at an instant that leaves room for the span.
fn clear(rt: &impl Abort, queue: &mut Queue, span: u32, instant: u64)
    requires span { queue.old.span ≡ span }
    ensures outputs { queue.new.outputs ≡ queue.old.outputs }
    ensures span { queue.new.span ≡ queue.old.span }
{
    assert!(rt; instant <= u64::MAX - u64::from(span));
    queue.clear(instant);
}

fn obey(rt: &impl Abort, queue: &mut Queue, outputs: &[u32], span: u32, step: &Step)
    requires outputs { queue.old.outputs ≡ outputs.now }
    requires span { queue.old.span ≡ span }
    ensures outputs { queue.new.outputs ≡ queue.old.outputs }
    ensures span { queue.new.span ≡ queue.old.span }
{
    match *step {
        Step::Put(instant, part, output) => put(rt, queue, outputs, span, (instant, part, output)),
        Step::First(want) => assert_eq!(rt; queue.first(), want),
        Step::Take(want) => assert_eq!(rt; queue.take_first(), want),
        Step::Now(want) => assert_eq!(rt; queue.now(), want),
        Step::Clear(instant) => clear(rt, queue, span, instant),
    }
}

// A step of a script; none where the text is no step.
fn step_of(text: &str) -> Option<Step> {
    let (word, rest) = text.split_once(' ')?;
    match (word, rest) {
        ("take", "none") => Some(Step::Take(None)),
        ("first", "none") => Some(Step::First(None)),
        ("first", _) => Some(Step::First(Some(rest.parse::<u64>().ok()?))),
        ("now", _) => Some(Step::Now(rest.parse::<u64>().ok()?)),
        ("clear", _) => Some(Step::Clear(rest.parse::<u64>().ok()?)),
        ("put", _) => {
            let (instant, part, output) = item_of(rest)?;
            Some(Step::Put(instant, part, output))
        }
        ("take", _) => Some(Step::Take(Some(item_of(rest)?))),
        _ => None,
    }
}

// An instant, a part and an output.
fn item_of(text: &str) -> Option<(u64, u32, u32)> {
    let (instant, rest) = text.split_once(' ')?;
    let (part, output) = rest.split_once(' ')?;
    let instant = instant.parse::<u64>().ok()?;
    Some((
        instant,
        part.parse::<u32>().ok()?,
        output.parse::<u32>().ok()?,
    ))
}

// A new queue takes the steps of a script, with a comma between two.
fn follow(
    rt: &impl Abort,
    alloc: Global,
    outputs: &[u32],
    span: u32,
    script: &str,
) -> Result<(), Memory>
    requires span { (1 ≤ span) × (span ≤ 255) }
    requires outputs { sum outputs.now ≤ 1048576 }
{
    let mut queue = Queue::new(alloc, outputs, span)?;
    for step in script.split(", ") {
        match step_of(step) {
            Some(step) => obey(rt, &mut queue, outputs, span, &step),
            None => panic!(rt; "no step: {step}"),
        }
    }
    Ok(())
}

#[test]
fn items_are_taken_by_instant_then_by_part_and_output(rt: HostRuntime) -> Result<(), Fail> {
    let one_part =
        "put 2 0 1, put 1 0 0, put 2 0 0, put 1 0 0, first 1, now 0, take 1 0 0, now 1, take 2 0 0, \
        take 2 0 1, take none, first none, now 2";
    follow(&rt, rt.alloc(), &[2], 3, one_part)?;
    let four_parts =
        "put 0 3 0, put 0 0 1, put 0 2 1, put 0 2 0, put 0 0 0, take 0 0 0, take 0 0 1, take 0 2 0, \
        put 0 0 0, take 0 0 0, take 0 2 1, take 0 3 0, take none, now 0";
    follow(&rt, rt.alloc(), &[2, 0, 2, 1], 1, four_parts)?;
    Ok(())
}

#[test]
fn an_item_put_twice_is_taken_once(rt: HostRuntime) -> Result<(), Fail> {
    let steps =
        "put 1 0 0, put 1 0 0, take 1 0 0, take none, put 1 0 0, put 2 0 0, take 1 0 0, take 2 0 0, take none";
    follow(&rt, rt.alloc(), &[1], 1, steps)?;
    Ok(())
}

#[test]
fn the_span_is_one_or_two_hundred_and_fifty_five(rt: HostRuntime) -> Result<(), Fail> {
    let one =
        "put 0 0 0, put 1 0 0, take 0 0 0, take 1 0 0, put 2 0 0, put 1 0 0, first 1, take 1 0 0, take 2 0 0, \
        now 2";
    follow(&rt, rt.alloc(), &[1], 1, one)?;
    let most =
        "put 255 1 0, put 255 0 0, put 0 1 0, take 0 1 0, first 255, now 0, take 255 0 0, now 255, put 510 0 0, \
        take 255 1 0, take 510 0 0, take none";
    follow(&rt, rt.alloc(), &[1, 1], 255, most)?;
    Ok(())
}

#[test]
fn a_cleared_queue_stands_where_it_is_told(rt: HostRuntime) -> Result<(), Fail> {
    // The last instant is 2^64 - 1.
    let steps =
        "put 0 0 0, put 3 0 1, clear 7, now 7, first none, put 10 0 1, put 7 0 0, take 7 0 0, clear 0, take none, \
        now 0, put 3 0 0, clear 18446744073709551612, put 18446744073709551615 0 1, first 18446744073709551615, \
        take 18446744073709551615 0 1, put 18446744073709551615 0 0, take 18446744073709551615 0 0, take none, \
        now 18446744073709551615";
    follow(&rt, rt.alloc(), &[2], 3, steps)?;
    Ok(())
}

#[test]
fn a_queue_without_outputs_is_empty(rt: HostRuntime) -> Result<(), Fail> {
    let steps = "first none, take none, clear 5, take none, now 5";
    follow(&rt, rt.alloc(), &[], 1, steps)?;
    follow(&rt, rt.alloc(), &[0, 0], 1, steps)?;
    Ok(())
}

#[test]
fn instants_go_round_the_circle(rt: HostRuntime) -> Result<(), Fail> {
    let mut queue = Queue::new(rt.alloc(), &[3], 2)?;
    put(&rt, &mut queue, &[3], 2, (0, 0, 0));
    put(&rt, &mut queue, &[3], 2, (1, 0, 1));
    for instant in 0..1000_u64 {
        assert_eq!(rt;
            queue.take_first(),
            Some((instant, 0, (instant % 3) as u32))
        );
        assert_eq!(rt; queue.first(), Some(instant + 1));
        put(
            &rt,
            &mut queue,
            &[3],
            2,
            (instant + 2, 0, ((instant + 2) % 3) as u32),
        );
    }
    Ok(())
}

#[test]
fn all_outputs_at_every_instant(rt: HostRuntime) -> Result<(), Fail> {
    let outputs = [4, 0, 70, 1, 64, 5000];
    let mut queue = Queue::new(rt.alloc(), &outputs, 3)?;
    for instant in (0..4).rev() {
        for part in (0..6).rev() {
            for output in (0..outputs[part]).rev() {
                put(&rt, &mut queue, &outputs, 3, (instant, part as u32, output));
            }
        }
    }
    for instant in 0..4 {
        for part in 0..6 {
            for output in 0..outputs[part] {
                assert_eq!(rt; queue.take_first(), Some((instant, part as u32, output)));
            }
        }
    }
    assert_eq!(rt; queue.take_first(), None);
    Ok(())
}

#[test]
fn as_many_outputs_as_there_may_be(rt: HostRuntime) -> Result<(), Fail> {
    let outputs = [1, 1_048_575];
    let mut queue = Queue::new(rt.alloc(), &outputs, 1)?;
    for output in (0..1_048_575).rev() {
        put(&rt, &mut queue, &outputs, 1, (1, 1, output));
    }
    put(&rt, &mut queue, &outputs, 1, (1, 0, 0));
    assert_eq!(rt; queue.take_first(), Some((1, 0, 0)));
    for output in 0..1_048_575 {
        assert_eq!(rt; queue.take_first(), Some((1, 1, output)));
    }
    assert_eq!(rt; queue.take_first(), None);
    Ok(())
}
