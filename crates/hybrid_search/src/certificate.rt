//! The certificate: a plan that was found is returned only if the auditor passes it at a lower cost.
ghost use Rattle.std.specs.Prelude.{◌≡◌, [], true, IfOk, IfSome};
ghost use Rattle.route_sched.specs.Cost.{cost_of};
ghost use Rattle.plan_audit.specs.Passes.{passes};
ghost use Rattle.hybrid_search.specs.Bred.{IsBred, IsImprovement};

use plan_audit::{Verdict, audit, passes_decides_the_verdict};
use plan_types::{
    Cost, OutOfMemory, Pins, Plan, Problem, Routes, costs_are_totally_ordered,
    costs_compare_lexicographically,
};
use std::alloc::Global;

/// Returns the plan that was found if it passes the auditor and costs less than the built plan, which passes too.
/// Otherwise returns the built plan.
pub(crate) fn better(
    alloc: Global,
    problem: &Problem,
    built: &Plan,
    found: Plan,
) -> Result<Plan, OutOfMemory>
    ensures { IfOk result (λ plan. IsBred problem.now built.now.routes plan.routes) }
{
    if is_improvement(alloc, problem, built, &found)? {
        return Ok(found);
    }
    let kept = built.copy()?;
    Ok(kept)
}

// Returns whether both plans pass the auditor and the one that was found costs less.
fn is_improvement(
    alloc: Global,
    problem: &Problem,
    built: &Plan,
    found: &Plan,
) -> Result<bool, OutOfMemory>
    ensures { IfOk result (λ yes. yes ≡ true
        → IsImprovement problem.now built.now.routes found.now.routes) }
{
    costs_compare_lexicographically();
    costs_are_totally_ordered();
    let Some(found_cost) = passing_cost(alloc, problem, found)? else {
        return Ok(false);
    };
    let Some(built_cost) = passing_cost(alloc, problem, built)? else {
        return Ok(false);
    };
    Ok(found_cost < built_cost)
}

// Returns the cost of a plan if the auditor passes it without pins.
fn passing_cost(alloc: Global, problem: &Problem, plan: &Plan) -> Result<Option<Cost>, OutOfMemory>
    ensures { IfOk result (λ passing. IfSome passing
        (λ cost. (passes problem.now [] plan.now.routes ≡ true)
        × (cost ≡ cost_of problem.now plan.now.routes))) }
{
    passes_decides_the_verdict();
    let pins = Pins {
        routes: Routes::new(alloc),
    };
    match audit(alloc, problem, &pins, plan)? {
        Verdict::Pass(cost) => Ok(Some(cost)),
        Verdict::Broken { .. } => Ok(None),
    }
}
