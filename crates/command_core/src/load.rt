//! `Load`: a new job.
ghost use Rattle.std.specs.Prelude.{◌≡◌, IfOk, IfErr};
ghost use Rattle.command_core.specs.Effects.{loaded};

use crate::laws::commands_keep_invariants;
use command_types::{Job, Refusal, empty_lists};
use plan_types::Problem;
use std::alloc::Global;

/// Returns the job of a problem with an empty plan.
pub(crate) fn load(alloc: Global, problem: &Problem, seed: u64) -> Result<Job, Refusal>
    ensures ok { IfOk result (λ new. new ≡ loaded problem.now seed) }
    ensures err { IfErr result (λ r. r ≡ Refusal.OutOfMemory) }
{
    commands_keep_invariants();
    let vehicles = problem.fleet;
    let copy = problem.copy()?;
    let lists = empty_lists(alloc, vehicles)?;
    Ok(Job::from_parts(copy, lists.pins, lists.plan, lists.work, 0, seed, 0))
}
