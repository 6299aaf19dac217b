//! The text of a plan, and the requests that it leaves out.
ghost use Rattle.std.specs.Prelude.{◌≡◌, [], IfOk};
ghost use Rattle.sol_text.specs.Faults.{Spells};
ghost use Rattle.seeded_search.specs.Steps.{unplanned_names};
ghost use Rattle.command_text.specs.Showing.{solution_of};
ghost use Rattle.plan_solve.specs.Solved.{PrintsPlan, plan_text};

use crate::progress_lines::EndedJob;
use crate::solver::SolvedPlan;
use command_core::{Job, unplanned_names};
use plan_audit::passing_is_local;
use plan_types::OutOfMemory;
use sol_text::{write_routes, write_sol};
use std::alloc::{AllocError, Global};

/// Returns the plan of the job as text, with the requests that it leaves out.
pub(crate) fn answer(alloc: Global, ended: EndedJob) -> Result<SolvedPlan, OutOfMemory>
    ensures plan { IfOk result (PrintsPlan ended.job) }
    ensures reported { IfOk result (λ solved. solved.is_written ≡ ended.is_written) }
{
    let reported = printed_plan(alloc, &ended.job)?;
    Ok(SolvedPlan {
        text: reported.text,
        unplanned: reported.unplanned,
        job: ended.job,
        is_written: ended.is_written,
    })
}

// A plan as text, without its job. A function of its own makes it, so that an early return there has no job to
// drop.
#[derive(Drop)]
struct PrintedPlan {
    text: Vec<u8>,
    unplanned: Vec<u32>,
}

fn printed_plan(alloc: Global, job: &Job) -> Result<PrintedPlan, OutOfMemory>
    ensures text { IfOk result (λ reported. reported.text.items ≡ plan_text job.now) }
    ensures unplanned { IfOk result (λ reported. reported.unplanned.items
        ≡ unplanned_names job.now.problem job.now.plan) }
    ensures spells { IfOk result (λ reported. reported.unplanned.items ≡ []
        → Spells reported.text.items (solution_of job.now)) }
{
    let unplanned = unplanned_names(alloc, &job.problem, job.plan.routes.as_slice())?;
    let text = plan_text(alloc, job, &unplanned)?;
    Ok(PrintedPlan { text, unplanned })
}

// Returns the text of the plan, which leaves out the requests with these names.
fn plan_text(alloc: Global, job: &Job, unplanned: &[u32]) -> Result<Vec<u8>, OutOfMemory>
    requires { unplanned.now ≡ unplanned_names job.now.problem job.now.plan }
    ensures text { IfOk result (λ text. text.items ≡ plan_text job.now) }
    ensures spells { IfOk result (λ text. unplanned.now ≡ []
        → Spells text.items (solution_of job.now)) }
{
    if !unplanned.is_empty() {
        return write_routes(alloc, job.plan.routes.as_slice());
    }
    passing_is_local();
    match write_sol(alloc, &job.problem, &job.plan) {
        Ok(text) => Ok(text),
        Err(_) => Err(AllocError),
    }
}
