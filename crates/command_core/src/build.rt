//! Executes `Build` and `Deviation`.
ghost use Rattle.std.specs.Prelude.{◌≡◌, IfOk, IfErr};
ghost use Rattle.command_core.specs.Changes.{job_with};
ghost use Rattle.command_core.specs.Effects.{built, with_deviation};

use crate::changes::JobChange;
use crate::insertion::placed_all;
use crate::marks::unplanned_names;
use command_types::{Job, Refusal};
use std::alloc::Global;

/// Inserts each unplanned request at its best place, in ascending order of name. A request without a place stays
/// unplanned.
pub(crate) fn build(alloc: Global, job: &Job) -> Result<JobChange, Refusal>
    ensures ok { IfOk result (λ change. job_with change job.now ≡ built job.now) }
    ensures err { IfErr result (λ r. r ≡ Refusal.OutOfMemory) }
{
    let names = unplanned_names(alloc, &job.problem, job.plan.routes.as_slice())?;
    let plan = placed_all(alloc, &job.problem, &job.pins, &job.plan, names.as_slice())?;
    let work = plan.copy()?;
    Ok(JobChange::Plans {
        plan,
        work,
        steps: job.steps,
    })
}

/// Sets the deviation: for a search relative to the incumbent, for annealing relative to the working plan.
pub(crate) fn deviate(job: &Job, deviation: u32) -> Result<JobChange, Refusal>
    ensures ok { IfOk result (λ change. job_with change job.now
        ≡ with_deviation job.now deviation) }
    ensures err { IfErr result (λ r. r ≡ Refusal.OutOfMemory) }
{
    Ok(JobChange::Working {
        work: job.plan.copy()?,
        deviation,
    })
}
