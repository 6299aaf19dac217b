//! The stops at the places of a route.

ghost use Rattle.std.specs.Prelude.{◌≡◌, ◌+◌, ◌≤◌, length, Some};
ghost use Rattle.plan_types.specs.Limits.{IsVisit, IsStop};
ghost use Rattle.plan_types.specs.Instance.{stop_at};
ghost use Rattle.route_sched.specs.Route.{AreDistinctStops, IsKnownStop, place};

use plan_types::{Problem, Stop};

/// Returns the stop at place `k + 1`, or the depot if that place is the return. Place 0 is the departure from
/// the depot.
pub fn next_stop<'a>(problem: &'a Problem, route: &[u32], k: usize) -> &'a Stop
    requires route { AreDistinctStops problem.now route.now }
    requires within { k ≤ length route.now }
    ensures value { result.now ≡ place problem.now route.now (k + 1) }
    ensures visit { IsVisit result.now }
{
    match route.get(k) {
        Some(number) => known_stop(problem, *number),
        None => &problem.depot,
    }
}

// Returns the stop with this number, which must be a stop of a current request.
fn known_stop(problem: &Problem, number: u32) -> &Stop
    requires { IsKnownStop problem.now number }
    ensures found { stop_at problem.now number ≡ Some result.now }
    ensures number { result.now.number ≡ number }
    ensures stop { IsStop result.now }
{
    problem.stop(number).unwrap()
}
