//! Rule 8, on the time when a vehicle returns.
ghost use Rattle.std.specs.Prelude.{◌≡◌, ◌+◌, ◌<◌, ◌≤◌, ◌^◌, All, IfOk, length};
ghost use Rattle.route_sched.specs.Route.{AreDistinctStops};
ghost use Rattle.route_sched.specs.VisitList.{visit_after};
ghost use Rattle.rule_violations.specs.Violations.{return_violation, return_violations};

use crate::limits::is_late;
use crate::stops::position_at;
use crate::violations::{Violation, add, violation_if};
use plan_types::{OutOfMemory, Problem, Route};
use route_sched::{Visit, Visits};
use std::alloc::Global;

/// Returns the violations by vehicles that return too late.
pub(crate) fn return_violations(
    alloc: Global,
    problem: &Problem,
    routes: &[Route],
) -> Result<Vec<Violation>, OutOfMemory>
    requires { All (AreDistinctStops problem.now) routes.now }
    ensures { IfOk result (λ found. found.items ≡ return_violations problem.now routes.now) }
{
    let mut found = Vec::new(alloc);
    for (number, route) in routes.iter().enumerate() {
        add(
            &mut found,
            return_violation(problem, number, route.as_slice()),
        )?;
    }
    Ok(found)
}

// Returns the violation if the vehicle of this route returns too late.
fn return_violation(problem: &Problem, number: usize, route: &[u32]) -> Option<Violation>
    requires once { AreDistinctStops problem.now route.now }
    requires fits { number + 1 < 2 ^ 64 }
    ensures { result ≡ return_violation problem.now number route.now }
{
    let back = visit_after(problem, route, route.len()).start;
    let latest = problem.depot.latest;
    violation_if(
        !route.is_empty() && is_late(problem, back, latest),
        position_at(number, route.len()),
        0,
        back.saturating_sub(u64::from(latest)),
    )
}

/// Returns the visit after this place of a route, counted from 0: that of the next stop, or the return after
/// the last one.
pub fn visit_after(problem: &Problem, route: &[u32], place: usize) -> Visit
    requires route { AreDistinctStops problem.now route.now }
    requires within { place ≤ length route.now }
    ensures { result ≡ visit_after problem.now route.now place }
{
    match Visits::new(problem, route).nth(place) {
        Some(visit) => visit,
        None => unreachable!(),
    }
}
