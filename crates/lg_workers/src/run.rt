//! Jobs done by workers beside each other.

ghost use denote.Param.Send.{IsSync};
ghost use Rattle.std.specs.Prelude.{◌≡◌, ℕ, ◌<◌, ◌+◌, ◌-◌, true, length, map, IfOk, OnOk};
ghost use Rattle.lg_workers.specs.Draws.{times};
ghost use Rattle.lg_workers.specs.Claims.{drawn_by, shares_of, is_spent, jobs_of, seats_of, IsOf};
ghost use Rattle.lg_workers.specs.Answers.{MayWork, IsDone};

use crate::order::in_order;
use crate::work::work;
use crate::{Claim, Claims, Gate, Job, Memory};
use std::alloc::Global;
use std::thread::{Threads, join_mut};

/// Does all jobs: item i is job i's answer. Each of the workers draws numbers of jobs from the claims until none are left.
/// Where the host starts no further thread, the caller does that worker's part itself.
///
/// `Memory`: there was not enough memory; the claim that was handed in can then only be dropped.
pub fn run_all<R: Threads + Sync, J: Job, G: Gate>(
    alloc: Global,
    rt: &R,
    jobs: &[J],
    claims: &Claims,
    claim: &mut Claim,
    workers: u32,
    gate: &G,
) -> Result<Vec<J::Out>, Memory>
    requires jobs { length jobs.now ≡ jobs_of claims.now }
    requires workers { workers ≡ seats_of claims.now }
    requires claim { MayWork claims.now workers claim.old }
    ensures answers { IfOk result (λ all. all.items ≡ map J.answer jobs.now) }
    ensures spent { OnOk result (IsOf claims.now claim.new × (shares_of claim.new ≡ workers) × (is_spent claim.new ≡ true)) }
    ensures once { OnOk result ((n : ℕ) → n < length jobs.now → times n (drawn_by claim.new) ≡ 1) }
{
    let answers = fork(alloc, rt, jobs, claims, claim, workers, gate)?;
    in_order(alloc, jobs, answers)
}

// One worker beside the others, each with one share of the claim.
fn fork<R: Threads + Sync, J: Job, G: Gate>(
    alloc: Global,
    rt: &R,
    jobs: &[J],
    claims: &Claims,
    claim: &mut Claim,
    workers: u32,
    gate: &G,
) -> Result<Vec<(u32, J::Out)>, Memory>
    requires jobs { length jobs.now ≡ jobs_of claims.now }
    requires claim { MayWork claims.now workers claim.old }
    ensures of { IsOf claims.now claim.new × (shares_of claim.new ≡ workers) }
    ensures done { IfOk result (λ answers. IsDone J.answer jobs.now claim.new answers.items) }
{
    if workers == 1 {
        return work(alloc, jobs, claims, claim, gate);
    }
    let mut other = claims.split(claim);
    let (mine, theirs) = join_mut(
        rt,
        &mut || -> Result<Vec<(u32, J::Out)>, Memory>
            requires { (length jobs.now ≡ jobs_of claims.now) × MayWork claims.now 1 other }
            ensures { IsOf claims.entry.now other.exit × (shares_of other.exit ≡ 1) × IfOk result (λ answers. IsDone J.answer jobs.entry.now other.exit answers.items) }
        { work(alloc, jobs, claims, &mut other, gate) },
        &mut || -> Result<Vec<(u32, J::Out)>, Memory>
            requires { IsSync R.row × (length jobs.now ≡ jobs_of claims.now) × (1 < workers) × MayWork claims.now (workers - 1) claim.now }
            ensures { IsOf claims.entry.now claim.exit.now × (shares_of claim.exit.now ≡ workers - 1) × IfOk result (λ answers. IsDone J.answer jobs.entry.now claim.exit.now answers.items) }
        { fork(alloc, rt, jobs, claims, claim, workers - 1, gate) },
    );
    together(jobs, claims, claim, other, theirs, mine)
}

// What two claims were worked to, in one.
fn together<J: Job>(
    jobs: &[J],
    claims: &Claims,
    claim: &mut Claim,
    other: Claim,
    theirs: Result<Vec<(u32, J::Out)>, Memory>,
    mine: Result<Vec<(u32, J::Out)>, Memory>,
) -> Result<Vec<(u32, J::Out)>, Memory>
    requires of { IsOf claims.now claim.old × IsOf claims.now other }
    requires theirs { IfOk theirs (λ answers. IsDone J.answer jobs.now claim.old answers.items) }
    requires mine { IfOk mine (λ answers. IsDone J.answer jobs.now other answers.items) }
    ensures of { IsOf claims.now claim.new × (shares_of claim.new ≡ shares_of claim.old + shares_of other) }
    ensures done { IfOk result (λ answers. IsDone J.answer jobs.now claim.new answers.items) }
{
    claims.join(claim, other);
    let mut answers = theirs?;
    let mut others = mine?;
    answers.append(&mut others)?;
    Ok(answers)
}
