//! Adopting a plan from elsewhere: from another search, another machine or another program.
ghost use Rattle.std.specs.Prelude.{◌≡◌, true, IfOk, IfErr};
ghost use Rattle.route_sched.specs.Route.{IsPlan};
ghost use Rattle.plan_audit.specs.Passes.{passes};
ghost use Rattle.command_core.specs.Changes.{job_with};
ghost use Rattle.command_core.specs.Effects.{adopted};
ghost use Rattle.command_core.specs.Refusals.{adopt_refusal, costs_more};

use crate::changes::JobChange;
use crate::plan_check::is_passing;
use command_types::{Job, Refusal};
use plan_audit::passing_is_local;
use plan_types::{Pins, Plan, Problem, costs_compare_lexicographically};
use route_sched::plan_cost;

/// Returns why this plan may not replace the incumbent, or `None` if it may. Allocates nothing, and takes as long
/// as `is_passing`.
pub(crate) fn adopt_refusal(
    problem: &Problem,
    pins: &Pins,
    incumbent: &Plan,
    plan: &Plan,
) -> Option<Refusal>
    requires { passes problem.now pins.now.routes incumbent.now.routes ≡ true }
    ensures { result ≡ adopt_refusal problem.now pins.now.routes incumbent.now.routes
        plan.now.routes }
{
    passing_is_local();
    if !is_passing(problem, pins.routes.as_slice(), plan.routes.as_slice()) {
        return Some(Refusal::NotAPlan);
    }
    if costs_more(problem, plan, incumbent) {
        return Some(Refusal::Dearer);
    }
    None
}

// Returns whether a plan costs more than another.
fn costs_more(problem: &Problem, plan: &Plan, other: &Plan) -> bool
    requires plan { IsPlan problem.now plan.now.routes }
    requires other { IsPlan problem.now other.now.routes }
    ensures { result ≡ costs_more problem.now plan.now.routes other.now.routes }
{
    costs_compare_lexicographically();
    let cost = plan_cost(problem, plan);
    plan_cost(problem, other) < cost
}

/// Makes this plan both the incumbent and the working plan.
pub(crate) fn adopt(job: &Job, plan: &Plan) -> Result<JobChange, Refusal>
    ensures ok { IfOk result (λ change. job_with change job.now ≡ adopted job.now plan.now.routes) }
    ensures err { IfErr result (λ r. r ≡ Refusal.OutOfMemory) }
{
    Ok(JobChange::Plans {
        plan: plan.copy()?,
        work: plan.copy()?,
        steps: job.steps,
    })
}
