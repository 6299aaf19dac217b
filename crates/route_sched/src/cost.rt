//! The cost of a plan.

ghost use Rattle.std.specs.Prelude.{◌≡◌, ◌==◌, ◌+◌, ◌*◌, ◌≤◌, length};
ghost use Rattle.std.specs.List.{All, AllByRecursion, concat, list_any};
ghost use Rattle.plan_types.specs.Instance.{IsInstance};
ghost use Rattle.route_sched.specs.Route.{AreDistinctStops, IsPlan};
ghost use Rattle.route_sched.specs.Cost.{has_stop, is_planned, used_count, vehicle_count, total_length, unplanned_count, cost_of};
ghost use Rattle.route_sched.specs.RequestCount.{counts, count_among, IsPartOf};

use crate::schedule::route_distance;
use plan_types::{Cost, Kind, Plan, Problem, Request, Route};

/// Returns the cost of a plan: its unplanned requests, its nonempty routes (0 for a problem of kind `Vrp`) and
/// its distance. Allocates nothing.
pub fn plan_cost(problem: &Problem, plan: &Plan) -> Cost
    requires { IsPlan problem.now plan.now.routes }
    ensures cost { result ≡ cost_of problem.now plan.now.routes }
    ensures numbers { AllByRecursion (λ n. n ≤ 40000) (concat plan.now.routes) }
{
    let routes = plan.routes.as_slice();
    let unplanned = problem.requests.len() as u64 - planned_count(problem, routes);
    routes_cost(problem, routes, unplanned)
}

/// Returns the cost of routes, for a caller that has counted the unplanned requests. Takes linear time and
/// allocates nothing.
pub fn routes_cost(problem: &Problem, routes: &[Route], unplanned: u64) -> Cost
    requires plan { IsPlan problem.now routes.now }
    requires counted { unplanned ≡ unplanned_count problem.now routes.now }
    ensures { result ≡ cost_of problem.now routes.now }
{
    Cost {
        unplanned,
        vehicles: vehicle_count(problem.kind, routes),
        // The routes of a plan share no stop, so the distance fits a `u64`.
        distance: total_distance(problem, routes) as u64,
    }
}

// Returns the number of requests that have a stop in a route.
fn planned_count(problem: &Problem, routes: &[Route]) -> u64
    requires problem { IsInstance problem.now }
    requires plan { IsPlan problem.now routes.now }
    ensures { result + unplanned_count problem.now routes.now ≡ length problem.now.requests }
{
    let mut planned = 0;
    for route in routes {
        planned += counted_in(problem, routes, route.as_slice());
    }
    planned
}

// Returns the number of requests that are counted at a stop of this route.
fn counted_in(problem: &Problem, routes: &[Route], route: &[u32]) -> u64
    requires { IsPartOf route.now routes.now }
    ensures { result ≡ count_among problem.now (concat routes.now) route.now }
{
    route
        .iter()
        .filter(|number| is_counted_at(problem, routes, route, **number))
        .count() as u64
}

// Returns whether a request is counted at this stop: at its single stop, at its pickup, or at a delivery whose
// pickup is in no route. The pickup is usually in the delivery's own route, so that route is searched first.
fn is_counted_at(problem: &Problem, routes: &[Route], route: &[u32], number: u32) -> bool
    requires { IsPartOf route.now routes.now }
    ensures { result ≡ counts problem.now (concat routes.now) number }
{
    match problem.name_of(number) {
        Some(name) => name == number || !(route.contains(&name) || has_stop(routes, name)),
        None => false,
    }
}

/// Returns whether one of the routes has the stop with this number.
pub fn has_stop(routes: &[Route], number: u32) -> bool
    ensures { result ≡ has_stop routes.now number }
{
    routes.iter().any(|route| is_in(route, number))
}

fn is_in(route: &Route, number: u32) -> bool
    ensures { result ≡ list_any (λ n. n == number) route.now }
{
    route.as_slice().contains(&number)
}

/// Returns whether a stop of the request is in one of the routes. Allocates nothing, and so searches all
/// routes.
pub fn is_planned(routes: &[Route], request: &Request) -> bool
    ensures { result ≡ is_planned routes.now request.now }
{
    match request {
        Request::Single(stop) => has_stop(routes, stop.number),
        Request::Pair(pickup, delivery) => {
            has_stop(routes, pickup.number) || has_stop(routes, delivery.number)
        }
    }
}

/// Returns the number of vehicles in the cost: the nonempty routes, or 0 for a problem of kind `Vrp`.
pub fn vehicle_count(kind: Kind, routes: &[Route]) -> u64
    ensures { result ≡ vehicle_count kind routes.now }
{
    match kind {
        Kind::LiLim => used_count(routes),
        Kind::Vrp => 0,
    }
}

/// Returns the number of routes that are not empty.
pub fn used_count(routes: &[Route]) -> u64
    ensures { result ≡ used_count routes.now }
{
    routes
        .iter()
        .filter(|route| !route.as_slice().is_empty())
        .count() as u64
}

/// Returns the total distance of the routes. Routes that are not a plan may share stops, and then the sum may
/// exceed a `u64`.
pub fn total_distance(problem: &Problem, routes: &[Route]) -> u128
    requires { All (AreDistinctStops problem.now) routes.now }
    ensures value { result ≡ total_length problem.now routes.now }
    ensures bound { result ≤ 5656854 * length (concat routes.now) }
{
    let mut total = 0;
    for route in routes {
        total += u128::from(route_distance(problem, route.as_slice()));
    }
    total
}
