//! The audit: one rule after another, until one is broken.
ghost use Rattle.std.specs.Prelude.{◌≡◌, All, IfNone, IfOk, MatchOption, MatchResult};
ghost use Rattle.route_sched.specs.Route.{AreDistinctStops, IsPlan};
ghost use Rattle.plan_types.specs.Instance.{IsInstance};
ghost use Rattle.plan_audit.specs.Verdict.{Subject, planned, printed, routes_of, KeepsRules, IsBrokenWithin, IsVerdictWithin, IsVerdict, IsRoutesVerdict};
ghost use Rattle.plan_audit.specs.declared.rules.Verdict.TheVariants.{Pass};
ghost use Rattle.plan_audit.specs.FirstFault.{unserved_of};

use crate::fleet::first_route_beyond;
use crate::pins::first_pin_mismatch;
use crate::rules::{Rule, Verdict};
use crate::scan::Scan;
use crate::timing::{cost_within_limits, first_late, first_late_return, first_overload};
use plan_types::{
    Cost, Kind, OutOfMemory, Pins, Plan, Problem, Route, Solution, numbers_are_below_next_number,
};
use route_sched::routes_cost;
use std::alloc::Global;

/// Audits a plan with its pins. Returns the first violation by rule, route, place and stop, or `Pass` with the
/// cost, or `OutOfMemory`.
///
/// A plan may leave requests out and has no printed cost, so rule 11 is not checked. A vehicle without a pin
/// has an empty one. A nonempty pin without a route is a violation. A plan that does not have one route for
/// each vehicle breaks rule 9, and then its pins are not checked.
pub fn audit(
    alloc: Global,
    problem: &Problem,
    pins: &Pins,
    plan: &Plan,
) -> Result<Verdict, OutOfMemory>
    ensures { IfOk result (IsVerdict problem.now (planned plan.now.routes pins.now.routes)) }
{
    let routes = plan.routes.as_slice();
    let scan = Scan::new(alloc, problem, routes)?;
    let cost = match check_all_routes(&scan, None) {
        Ok(cost) => cost,
        Err(broken) => return Ok(broken),
    };
    if routes.len() != problem.fleet as usize {
        return Ok(Rule::Fleet.broken_by(0));
    }
    if let Some(fault) = first_pin_mismatch(routes, pins.routes.as_slice()) {
        return Ok(Rule::Pin.broken_at(fault));
    }
    Ok(Verdict::Pass(cost))
}

/// Audits the routes of a printed solution without its cost. Returns the first violation by rule, route, place
/// and stop, or `Pass` with the cost, or `OutOfMemory`. Every request must be served. There are no pins and no
/// printed cost, so rules 10 and 11 are not checked.
pub fn audit_routes(
    alloc: Global,
    problem: &Problem,
    routes: &[Route],
) -> Result<Verdict, OutOfMemory>
    ensures { IfOk result (IsRoutesVerdict problem.now routes.now) }
{
    let scan = Scan::new(alloc, problem, routes)?;
    let cost = match check_all_routes(&scan, scan.first_unserved()) {
        Ok(cost) => cost,
        Err(broken) => return Ok(broken),
    };
    if let Some(route) = first_route_beyond(problem.fleet, routes) {
        return Ok(Rule::Fleet.broken_from(route));
    }
    Ok(Verdict::Pass(cost))
}

/// Audits a printed solution. Returns the verdict on its routes; if they pass, checks the printed cost too
/// (rule 11). Returns `OutOfMemory` if an allocation fails.
pub fn audit_solution(
    alloc: Global,
    problem: &Problem,
    solution: &Solution,
) -> Result<Verdict, OutOfMemory>
    ensures { IfOk result (IsVerdict problem.now (printed solution.now.routes solution.now.cost)) }
{
    let cost = match audit_routes(alloc, problem, solution.routes.as_slice())? {
        Verdict::Pass(cost) => cost,
        broken => return Ok(broken),
    };
    if cost.distance != solution.cost {
        return Ok(Rule::PrintedCost.broken_by(0));
    }
    Ok(Verdict::Pass(cost))
}

// Returns the cost of the routes if rules 1 to 8 hold, else the first violation of these rules. `unserved` is
// the first request that must be served and is not, if there is one.
fn check_all_routes(scan: &Scan, unserved: Option<u32>) -> Result<Cost, Verdict>
    requires { IsInstance scan.now.problem.now }
    ensures judged { (s : Subject) → routes_of s ≡ scan.now.routes.now
        → unserved ≡ unserved_of scan.now.problem.now s
        → MatchResult result (λ cost. IsVerdictWithin 1 8 scan.now.problem.now s (Pass cost))
        (IsBrokenWithin 1 8 scan.now.problem.now s) }
{
    if let Some(broken) = first_broken_stop_rule(scan, unserved) {
        return Err(broken);
    }
    check_loads_and_times(scan)
}

// Returns the cost of the routes if rules 6 to 8 hold, else the first violation of these rules.
fn check_loads_and_times(scan: &Scan) -> Result<Cost, Verdict>
    requires { IsPlan scan.now.problem.now scan.now.routes.now }
    ensures judged { (s : Subject) → routes_of s ≡ scan.now.routes.now
        → MatchResult result (λ cost. IsVerdictWithin 6 8 scan.now.problem.now s (Pass cost))
        (IsBrokenWithin 6 8 scan.now.problem.now s) }
{
    let unplanned = scan.unplanned();
    if let Some(cost) = cost_within_limits(scan.problem, scan.routes, unplanned) {
        return Ok(cost);
    }
    match first_broken_limit(scan.problem, scan.routes) {
        Some(broken) => Err(broken),
        None => Ok(routes_cost(scan.problem, scan.routes, unplanned)),
    }
}

// Returns the first violation of rules 1 to 5, on the positions of stops.
fn first_broken_stop_rule(scan: &Scan, unserved: Option<u32>) -> Option<Verdict>
    requires { IsInstance scan.now.problem.now }
    ensures least { (s : Subject) → routes_of s ≡ scan.now.routes.now
        → unserved ≡ unserved_of scan.now.problem.now s
        → MatchOption result (KeepsRules 1 5 scan.now.problem.now s)
        (IsBrokenWithin 1 5 scan.now.problem.now s) }
    ensures plan { IfNone result (IsPlan scan.now.problem.now scan.now.routes.now) }
{
    if let Some(fault) = scan.first_unknown() {
        return Some(Rule::UnknownStop.broken_at(fault));
    }
    // From here on, each stop of the plan belongs to a request, so its number is below `next_number`.
    numbers_are_below_next_number();
    if let Some(fault) = scan.first_repeated() {
        return Some(Rule::VisitedTwice.broken_at(fault));
    }
    if let Some(name) = unserved {
        return Some(Rule::MissingStop.broken_by(name));
    }
    if let Some(fault) = scan.first_missing() {
        return Some(Rule::MissingStop.broken_at(fault));
    }
    if let Some(fault) = scan.first_split() {
        return Some(Rule::SplitPair.broken_at(fault));
    }
    let fault = scan.first_early_delivery()?;
    Some(Rule::EarlyDelivery.broken_at(fault))
}

// Returns the first violation of rules 6 to 8, on loads and times.
fn first_broken_limit(problem: &Problem, routes: &[Route]) -> Option<Verdict>
    requires { All (AreDistinctStops problem.now) routes.now }
    ensures least { (s : Subject) → routes_of s ≡ routes.now
        → MatchOption result (KeepsRules 6 8 problem.now s) (IsBrokenWithin 6 8 problem.now s) }
{
    if let Some(fault) = first_overload(problem, routes) {
        return Some(Rule::Load.broken_at(fault));
    }
    match problem.kind {
        Kind::LiLim => {}
        Kind::Vrp => return None,
    }
    if let Some(fault) = first_late(problem, routes) {
        return Some(Rule::Late.broken_at(fault));
    }
    let fault = first_late_return(problem, routes)?;
    Some(Rule::LateReturn.broken_at(fault))
}
