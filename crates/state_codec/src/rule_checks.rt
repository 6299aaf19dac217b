//! Checks a state that was read completely by the auditor's rules.
ghost use Rattle.std.specs.Prelude.{◌≡◌, true, All, IfOk, IfErr, OnOk};
ghost use Rattle.std.specs.List.{list_all};
ghost use Rattle.route_sched.specs.Route.{AreDistinctStops};
ghost use Rattle.plan_audit.specs.Passes.{feasible_alone, passes};
ghost use Rattle.state_codec.specs.DecodeResults.{IsPlanRefused, IsPinRefused, ReportsRule};

use crate::fault::CodecFault;
use plan_audit::{
    Verdict, audit, feasible_alone_decides_feasibility, passes_decides_the_verdict, route_fault,
};
use plan_types::{Pins, Plan, Problem, Route};
use std::alloc::Global;

/// Checks that the plan passes.
pub(crate) fn audit_plan(
    alloc: Global,
    problem: &Problem,
    pins: &Pins,
    plan: &Plan,
) -> Result<(), CodecFault>
    ensures ok { OnOk result (passes problem.now pins.now.routes plan.now.routes ≡ true) }
    ensures err { IfErr result
        (ReportsRule (IsPlanRefused problem.now pins.now.routes plan.now.routes)) }
{
    passes_decides_the_verdict();
    match audit(alloc, problem, pins, plan)? {
        Verdict::Pass(_) => Ok(()),
        Verdict::Broken { rule, .. } => Err(CodecFault::PlanRefused(rule)),
    }
}

/// Checks that each pin alone is a feasible route.
pub(crate) fn check_pins(problem: &Problem, pins: &[Route]) -> Result<(), CodecFault>
    requires { All (AreDistinctStops problem.now) pins.now }
    ensures ok { OnOk result (list_all (feasible_alone problem.now) pins.now ≡ true) }
    ensures err { IfErr result (ReportsRule (IsPinRefused problem.now pins.now)) }
{
    feasible_alone_decides_feasibility();
    for pin in pins {
        if let Some(rule) = route_fault(problem, pin.as_slice()) {
            return Err(CodecFault::PlanRefused(rule));
        }
    }
    Ok(())
}
