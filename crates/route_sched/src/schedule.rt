//! The starts, the loads and the distance of a route.

ghost use Rattle.std.specs.Prelude.{◌≡◌, ◌*◌, ◌≤◌, length, IfOk};
ghost use Rattle.route_sched.specs.Route.{AreDistinctStops};
ghost use Rattle.route_sched.specs.Schedule.{starts_of, loads_of, route_length};

use crate::places::next_stop;
use crate::visits::Visits;
use nint_dist::dist;
use plan_types::{OutOfMemory, Problem};
use std::alloc::Global;

/// Returns the start of service at each stop of a route, and the time when the vehicle is back at the depot.
///
/// The vehicle leaves the depot at the depot's `earliest`. Each leg takes as much time as its distance `dist`.
/// If the vehicle arrives before a stop's `earliest`, it waits.
pub fn starts(alloc: Global, problem: &Problem, route: &[u32]) -> Result<Vec<u64>, OutOfMemory>
    requires { AreDistinctStops problem.now route.now }
    ensures { IfOk result (λ starts. starts.items ≡ starts_of problem.now route.now) }
{
    Visits::new(problem, route)
        .map(|visit| visit.start)
        .collect(alloc)
}

/// Returns the load after each stop of a route.
pub fn loads(alloc: Global, problem: &Problem, route: &[u32]) -> Result<Vec<i64>, OutOfMemory>
    requires { AreDistinctStops problem.now route.now }
    ensures { IfOk result (λ loads. loads.items ≡ loads_of problem.now route.now) }
{
    Visits::new(problem, route)
        .take(route.len())
        .map(|visit| visit.load)
        .collect(alloc)
}

/// Returns the distance from the depot along the route and back to the depot. An empty route has distance 0.
/// Allocates nothing.
pub fn route_distance(problem: &Problem, route: &[u32]) -> u64
    requires { AreDistinctStops problem.now route.now }
    ensures value { result ≡ route_length problem.now route.now }
    ensures bound { result ≤ 5656854 * length route.now }
{
    if route.is_empty() {
        return 0;
    }
    let mut distance = 0;
    let mut last = &problem.depot;
    for k in 0..=route.len() {
        let stop = next_stop(problem, route, k);
        distance += u64::from(dist(last, stop));
        last = stop;
    }
    distance
}
