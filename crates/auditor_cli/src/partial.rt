//! Partial plans: plans that leave requests out, as `solve` prints them, with route lines but no cost line.
ghost use Rattle.std.specs.Prelude.{◌≡◌, IfOk, MatchOption};
ghost use Rattle.sol_text.specs.declared.faults.SolFaultKind.TheVariants.{NoCost};
ghost use Rattle.auditor_cli.specs.Partial.{IsCostOfPartial, IsPartialOrRefused, IsPartialPlan, IsPlanExamined, keeps_stops, partial_answer};

use crate::answer::{AuditAnswer, partial_line};
use crate::audit::{Examination, examine};
use crate::status::BROKEN;
use instance_read::Format;
use plan_audit::{Rule, Verdict, audit};
use plan_types::{Cost, OutOfMemory, Pins, Plan, Problem, Routes};
use route_sched::{plan_cost, used_count};
use sol_text::{SolFault, SolFaultKind};
use std::alloc::Global;

/// A plan that keeps rules 1 to 8, uses no more vehicles than there are, and leaves requests out. A pair is
/// planned or left out as a whole.
#[derive(Debug, Drop)]
pub struct PartialPlan {
    pub problem: Problem,
    pub plan: Plan,
    /// The cost. `unplanned` is at least 1.
    pub cost: Cost,
}

/// The result of examining an instance and a solution, if the solution may be a partial plan.
#[derive(Debug, Drop)]
pub enum PlanExamination {
    /// The result of `examine`.
    Whole(Examination),
    /// The solution has no cost line, and its routes form a partial plan.
    Partial(PartialPlan),
}

/// Examines both texts like `examine`, but accepts a partial plan if the solution has no cost line and no other
/// fault.
pub fn examine_plan(
    alloc: Global,
    format: Format,
    instance: &[u8],
    solution: &[u8],
) -> Result<PlanExamination, OutOfMemory>
    ensures { IfOk result (IsPlanExamined format instance.now solution.now) }
{
    match examine(alloc, format, instance, solution)? {
        Examination::BadCost(problem, routes, fault) => {
            partial_or_refused(alloc, problem, routes, fault)
        }
        examined => Ok(PlanExamination::Whole(examined)),
    }
}

// Returns the partial plan that the routes form, or the fault of the cost if they form none.
fn partial_or_refused(
    alloc: Global,
    problem: Problem,
    routes: Routes,
    fault: SolFault,
) -> Result<PlanExamination, OutOfMemory>
    ensures { IfOk result (IsPartialOrRefused problem routes fault) }
{
    let plan = Plan { routes };
    match cost_without_line(alloc, &problem, &plan, fault)? {
        Some(cost) => Ok(PlanExamination::Partial(PartialPlan {
            problem,
            plan,
            cost,
        })),
        None => {
            let Plan { routes } = plan;
            Ok(PlanExamination::Whole(Examination::BadCost(problem, routes, fault)))
        }
    }
}

// Returns the cost of a partial plan whose cost line is missing, or `None` if it is not one.
fn cost_without_line(
    alloc: Global,
    problem: &Problem,
    plan: &Plan,
    fault: SolFault,
) -> Result<Option<Cost>, OutOfMemory>
    ensures { IfOk result (λ found. MatchOption found
        (fault.kind ≡ NoCost → IsPartialPlan problem.now plan.now.routes → ⊥)
        (λ cost. (fault.kind ≡ NoCost) × IsCostOfPartial problem.now plan.now.routes cost)) }
{
    match fault.kind {
        SolFaultKind::NoCost => partial_cost(alloc, problem, plan),
        _ => Ok(None),
    }
}

// Returns the cost of the plan, or `None` if it is not a partial plan.
fn partial_cost(alloc: Global, problem: &Problem, plan: &Plan) -> Result<Option<Cost>, OutOfMemory>
    ensures { IfOk result (λ found. MatchOption found
        (IsPartialPlan problem.now plan.now.routes → ⊥)
        (IsCostOfPartial problem.now plan.now.routes)) }
{
    let pins = Pins {
        routes: Routes::new(alloc),
    };
    let verdict = audit(alloc, problem, &pins, plan)?;
    if !keeps_stops(verdict) {
        return Ok(None);
    }
    let cost = plan_cost(problem, plan);
    let is_partial = cost.unplanned > 0
        && used_count(plan.routes.as_slice()) <= u64::from(problem.fleet);
    Ok(is_partial.then_some(cost))
}

// Returns whether none of the rules 1 to 8 is broken, which concern stops and returns. For a plan, rule 9
// requires a route for each vehicle, so it would refuse a file that leaves out empty routes.
fn keeps_stops(verdict: Verdict) -> bool
    ensures { result ≡ keeps_stops verdict }
{
    match verdict {
        Verdict::Pass(_) => true,
        Verdict::Broken { rule, .. } => rule > Rule::LateReturn.number(),
    }
}

/// Returns the answer for a partial plan with this cost. It has the status of a broken rule.
pub fn partial_answer(alloc: Global, cost: Cost) -> Result<AuditAnswer, OutOfMemory>
    ensures { IfOk result (λ answer. answer ≡ partial_answer cost) }
{
    let line = partial_line(alloc, cost)?;
    Ok(AuditAnswer {
        line,
        status: BROKEN,
    })
}
