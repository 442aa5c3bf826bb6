//! What one worker does: it draws numbers until there is none, and does their jobs.

ghost use Rattle.std.specs.Prelude.{◌≡◌, ◌<◌, length, slice_index_or, IfOk};
ghost use Rattle.lg_workers.specs.Claims.{shares_of, jobs_of, IsOf};
ghost use Rattle.lg_workers.specs.Answers.{MayWork, IsDone};

use crate::{Claim, Claims, Gate, Job, Memory};
use std::alloc::Global;

// Draws until the claim is spent, and answers each number's job.
pub(crate) fn work<J: Job, G: Gate>(
    alloc: Global,
    jobs: &[J],
    claims: &Claims,
    claim: &mut Claim,
    gate: &G,
) -> Result<Vec<(u32, J::Out)>, Memory>
    requires jobs { length jobs.now ≡ jobs_of claims.now }
    requires claim { MayWork claims.now (shares_of claim.old) claim.old }
    ensures of { IsOf claims.now claim.new × (shares_of claim.new ≡ shares_of claim.old) }
    ensures done { IfOk result (λ answers. IsDone J.answer jobs.now claim.new answers.items) }
{
    let mut answers = Vec::new(alloc);
    while let Some(number) = claims.draw(claim) {
        let answer = answer_of(alloc, &jobs[number as usize], number, gate)?;
        answers.push((number, answer))?;
    }
    Ok(answers)
}

// Does one job, between the calls of the gate.
fn answer_of<J: Job, G: Gate>(
    alloc: Global,
    job: &J,
    number: u32,
    gate: &G,
) -> Result<J::Out, Memory>
    ensures { IfOk result (λ it. it ≡ J.answer job.now) }
{
    gate.before(number);
    let answer = job.go(alloc);
    gate.after(number);
    answer
}
