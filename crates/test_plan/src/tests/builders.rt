//! Stops, problems and routes that the examples share.
ghost use Rattle.std.specs.Prelude.{◌≡◌, true, IsTrue};
ghost use Rattle.route_sched.specs.Route.{AreDistinctStops};

use plan_types::limits::{MAX_FLEET, MAX_STOP_NUMBER};
use plan_types::{Kind, Plan, Problem, Request, Route, Routes, Stop};
use std::alloc::Global;
use std::test::Fail;

/// Returns a stop that may be served from time 0 on.
pub(crate) fn stop_at(
    number: u32,
    place: (i32, i32),
    demand: i32,
    latest: u32,
    service: u32,
) -> Stop {
    Stop {
        number,
        x: place.0,
        y: place.1,
        demand,
        earliest: 0,
        latest,
        service,
    }
}

/// Returns a request of one stop with no service time.
pub(crate) fn single(number: u32, place: (i32, i32), demand: i32, latest: u32) -> Request {
    Request::Single(stop_at(number, place, demand, latest, 0))
}

/// Returns a pickup with demand 1 and this latest start, and its delivery at the same place, with a latest start
/// of 50.
pub(crate) fn pair_at(number: u32, place: (i32, i32), latest: u32) -> Request {
    let pickup = stop_at(number, place, 1, latest, 0);
    Request::Pair(pickup, stop_at(number.saturating_add(1), place, -1, 50, 0))
}

/// Returns the depot at (0, 0) with this latest return.
pub(crate) fn depot_until(back: u32) -> Stop {
    stop_at(0, (0, 0), 0, back, 0)
}

/// Returns a problem of these requests.
pub(crate) fn problem_of(
    alloc: Global,
    kind: Kind,
    depot: Stop,
    capacity: u32,
    fleet: u32,
    requests: &[Request],
) -> Result<Problem, Fail> {
    let mut problem = Problem::new(alloc, kind, depot, capacity, fleet)?;
    for request in requests {
        problem.put(*request)?;
    }
    Ok(problem)
}

/// Returns a problem of one pickup and its delivery, with a fleet of two. `latest` is the latest start of the
/// delivery, `back` the latest return.
pub(crate) fn one_pair(
    alloc: Global,
    kind: Kind,
    capacity: u32,
    latest: u32,
    back: u32,
) -> Result<Problem, Fail> {
    let pickup = stop_at(1, (3, 4), 4, 50, 2);
    let delivery = stop_at(2, (6, 8), -4, latest, 2);
    let requests = [Request::Pair(pickup, delivery)];
    problem_of(alloc, kind, depot_until(back), capacity, 2, &requests)
}

/// Returns a problem of two pairs at two places, with a fleet of one. The second pickup has this latest start.
pub(crate) fn two_pairs(alloc: Global, kind: Kind, latest: u32) -> Result<Problem, Fail> {
    let requests = [pair_at(1, (1, 1), 50), pair_at(3, (2, 2), latest)];
    problem_of(alloc, kind, depot_until(100), 10, 1, &requests)
}

/// Returns a problem with as many pairs as possible, all at the place of the depot, and as many vehicles as
/// possible.
pub(crate) fn most_pairs(alloc: Global) -> Result<Problem, Fail> {
    let mut problem = Problem::new(alloc, Kind::LiLim, depot_until(100), 1, MAX_FLEET)?;
    for pair in 0..MAX_STOP_NUMBER / 2 {
        problem.put(pair_at(2 * pair + 1, (0, 0), 100))?;
    }
    Ok(problem)
}

/// Returns a route of the stops from the first number to the last.
pub(crate) fn route_between(alloc: Global, first: u32, last: u32) -> Result<Route, Fail> {
    let mut route = Route::new(alloc);
    for number in first..=last {
        route.push(number)?;
    }
    Ok(route)
}

/// Returns routes of this length with all stops in ascending order, followed by the empty routes of idle
/// vehicles.
pub(crate) fn most_routes(alloc: Global, length: u32) -> Result<Routes, Fail> {
    let mut routes = Routes::with_capacity(alloc, MAX_FLEET as usize)?;
    for vehicle in 0..MAX_FLEET {
        let before = vehicle.saturating_mul(length);
        let last = before.saturating_add(length).min(MAX_STOP_NUMBER);
        routes.push(route_between(alloc, before.saturating_add(1), last)?)?;
    }
    Ok(routes)
}

pub(crate) fn route_of(alloc: Global, stops: &[u32]) -> Result<Route, Fail> {
    Ok(Route::from(Vec::from_slice(alloc, stops)?))
}

pub(crate) fn routes_of(alloc: Global, first: &[u32], second: &[u32]) -> Result<Routes, Fail> {
    let mut routes = Routes::new(alloc);
    for stops in [first, second] {
        routes.push(route_of(alloc, stops)?)?;
    }
    Ok(routes)
}

pub(crate) fn one_route(alloc: Global, stops: &[u32]) -> Result<Plan, Fail> {
    let route = route_of(alloc, stops)?;
    let routes = Routes::from(vec![in alloc; route]?);
    Ok(Plan { routes })
}

// Returns whether each of these numbers is the number of a stop, and greater than the one before it.
fn are_ascending_stops(problem: &Problem, numbers: &[u32]) -> bool
    ensures { result ≡ true → AreDistinctStops problem.now numbers.now }
{
    let mut last = 0;
    for number in numbers {
        if *number <= last || problem.stop(*number).is_none() {
            return false;
        }
        last = *number;
    }
    true
}

// Returns whether each of these numbers is the number of a stop and occurs only once. Takes quadratic time.
fn are_distinct_in_any_order(problem: &Problem, stops: &[u32]) -> bool
    ensures { result ≡ true → AreDistinctStops problem.now stops.now }
{
    let mut left = stops;
    while let [stop, rest @ ..] = left {
        if problem.stop(*stop).is_none() || rest.contains(stop) {
            return false;
        }
        left = rest;
    }
    true
}

/// Returns whether the stops are known and distinct. The long routes of the examples are in ascending order.
pub(crate) fn are_distinct_stops(problem: &Problem, stops: &[u32]) -> bool
    ensures { IsTrue result → AreDistinctStops problem.now stops.now }
{
    if are_ascending_stops(problem, stops) {
        return true;
    }
    are_distinct_in_any_order(problem, stops)
}
