ghost use Rattle.std.specs.Prelude.{◌*◌, ◌<◌, ◌≤◌};

use lg_workers::*;
use std::alloc::Global;
use std::sync::atomic::{AtomicBool, AtomicU64, Ordering};
use std::test::Fail;
use std::thread::Threads;

// A job that answers its number once more.
#[derive(Drop)]
struct Twice(u16);

impl Job for Twice {
    type Out = u32;

    ghost answer = { λ job. 2 * job.0 };

    fn go(&self, _alloc: Global) -> Result<u32, Memory> {
        Ok(2 * u32::from(self.0))
    }
}

// A job that finds no memory from number 2 on.
#[derive(Drop)]
struct Scarce(u16);

impl Job for Scarce {
    type Out = u16;

    ghost answer = { λ job. job.0 };

    fn go(&self, _alloc: Global) -> Result<u16, Memory> {
        if self.0 < 2 { Ok(self.0) } else { Err(Memory) }
    }
}

fn twice_each(alloc: Global, count: u16) -> Result<Vec<Twice>, Fail> {
    let mut jobs = Vec::new(alloc);
    for number in 0..count {
        jobs.push(Twice(number))?;
    }
    Ok(jobs)
}

fn even_numbers(alloc: Global, count: u16) -> Result<Vec<u32>, Fail> {
    let mut numbers = Vec::new(alloc);
    for number in 0..count {
        numbers.push(2 * u32::from(number))?;
    }
    Ok(numbers)
}

#[test]
fn three_jobs_are_drawn_in_order_and_then_none(rt: HostRuntime) -> Result<(), Fail> {
    let (claims, mut claim) = Claims::new(rt.alloc(), 3, 1)?;
    assert_eq!(rt; claims.draw(&mut claim), Some(0));
    assert_eq!(rt; claims.draw(&mut claim), Some(1));
    assert_eq!(rt; claims.draw(&mut claim), Some(2));
    assert_eq!(rt; claims.draw(&mut claim), None);
    assert_eq!(rt; claims.draw(&mut claim), None);
    Ok(())
}

#[test]
fn claims_split_draw_and_join(rt: HostRuntime) -> Result<(), Fail> {
    let (claims, mut claim) = Claims::new(rt.alloc(), 3, 2)?;
    let mut other = claims.split(&mut claim);
    assert_eq!(rt; claims.draw(&mut other), Some(0));
    assert_eq!(rt; claims.draw(&mut claim), Some(1));
    assert_eq!(rt; claims.draw(&mut other), Some(2));
    assert_eq!(rt; claims.draw(&mut other), None);
    claims.join(&mut claim, other);
    assert_eq!(rt; claims.draw(&mut claim), None);
    Ok(())
}

#[test]
fn no_jobs_with_sixty_four_workers(rt: HostRuntime) -> Result<(), Fail> {
    let jobs: Vec<Twice> = Vec::new(rt.alloc());
    let (claims, mut claim) = Claims::new(rt.alloc(), 0, 64)?;
    let answers = run_all(
        rt.alloc(),
        &rt,
        jobs.as_slice(),
        &claims,
        &mut claim,
        64,
        &Open,
    )?;
    assert_eq!(rt; answers.len(), 0);
    assert_eq!(rt; claims.draw(&mut claim), None);
    Ok(())
}

#[test]
fn a_thousand_jobs_have_the_same_answers_with_any_workers(rt: HostRuntime) -> Result<(), Fail> {
    let jobs = twice_each(rt.alloc(), 1000)?;
    let wanted = even_numbers(rt.alloc(), 1000)?;
    let one = answers_of(&rt, rt.alloc(), jobs.as_slice(), 1)?;
    let two = answers_of(&rt, rt.alloc(), jobs.as_slice(), 2)?;
    let seven = answers_of(&rt, rt.alloc(), jobs.as_slice(), 7)?;
    let most = answers_of(&rt, rt.alloc(), jobs.as_slice(), 64)?;
    assert_eq!(rt; one.as_slice(), wanted.as_slice());
    assert_eq!(rt; two.as_slice(), wanted.as_slice());
    assert_eq!(rt; seven.as_slice(), wanted.as_slice());
    assert_eq!(rt; most.as_slice(), wanted.as_slice());
    Ok(())
}

// The answers of at most a thousand jobs by that many workers.
fn answers_of<R: Threads + Sync, J: Job>(
    rt: &R,
    alloc: Global,
    jobs: &[J],
    workers: u32,
) -> Result<Vec<J::Out>, Memory>
    requires { (0 < workers) × (workers ≤ 64) }
{
    if jobs.len() > 1000 {
        return Err(Memory);
    }
    let (claims, mut claim) = Claims::new(alloc, jobs.len() as u32, workers)?;
    run_all(alloc, rt, jobs, &claims, &mut claim, workers, &Open)
}

#[test]
fn a_job_without_memory_ends_in_memory(rt: HostRuntime) -> Result<(), Fail> {
    let jobs = [Scarce(0), Scarce(1), Scarce(2), Scarce(3)];
    assert!(rt; answers_of(&rt, rt.alloc(), &jobs, 1).is_err());
    assert!(rt; answers_of(&rt, rt.alloc(), &jobs, 3).is_err());
    assert!(rt; answers_of(&rt, rt.alloc(), &jobs[..2], 3).is_ok());
    Ok(())
}

// How often a job's gate was called.
#[derive(Drop)]
struct Visits {
    before: AtomicU64,
    after: AtomicU64,
}

impl Visits {
    fn none() -> Visits {
        Visits {
            before: AtomicU64::new(0),
            after: AtomicU64::new(0),
        }
    }

    fn is_once(&self) -> bool {
        self.before.load(Ordering::SeqCst) == 1 && self.after.load(Ordering::SeqCst) == 1
    }
}

// A gate of two jobs, each of which turns until the other was called.
#[derive(Drop)]
struct Meeting {
    first: Visits,
    second: Visits,
    missed: AtomicBool,
}

impl Gate for Meeting {
    fn before(&self, job: u32) {
        let (mine, other) = if job == 0 {
            (&self.first, &self.second)
        } else {
            (&self.second, &self.first)
        };
        mine.before.fetch_add(1, Ordering::SeqCst);
        for _ in 0..1_000_000_000 {
            if other.before.load(Ordering::SeqCst) > 0 {
                return;
            }
        }
        self.missed.store(true, Ordering::SeqCst);
    }

    fn after(&self, job: u32) {
        let mine = if job == 0 { &self.first } else { &self.second };
        mine.after.fetch_add(1, Ordering::SeqCst);
    }
}

#[test]
fn two_jobs_meet(rt: HostRuntime) -> Result<(), Fail> {
    let gate = Meeting {
        first: Visits::none(),
        second: Visits::none(),
        missed: AtomicBool::new(false),
    };
    let jobs = [Twice(0), Twice(1)];
    let (claims, mut claim) = Claims::new(rt.alloc(), 2, 2)?;
    let answers = run_all(rt.alloc(), &rt, &jobs, &claims, &mut claim, 2, &gate)?;
    assert_eq!(rt; answers.as_slice(), [0, 2].as_slice());
    assert!(rt; !gate.missed.load(Ordering::SeqCst));
    assert!(rt; gate.first.is_once() && gate.second.is_once());
    Ok(())
}

#[test]
fn the_limits_are_a_million_jobs_and_sixty_four_seats(rt: HostRuntime) {
    assert_eq!(rt; (MOST_JOBS, MOST_SEATS), (1_000_000, 64));
}
