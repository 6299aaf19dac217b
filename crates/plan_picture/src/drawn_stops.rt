//! The stops that are drawn, and the part of a route that is drawn.
ghost use Rattle.std.specs.Prelude.{◌≡◌, ◌++◌, All, IfOk, OnOk, map};
ghost use Rattle.std.specs.Option.{option_copied};
ghost use Rattle.route_sched.specs.Route.{AreDistinctStops};
ghost use Rattle.plan_picture.specs.DrawnStops.{is_new, is_served, kept_of, stops_in_order, stop_among, stops_along, unserved, unserved_one};

use plan_types::{OutOfMemory, Problem, Route, Stop};
use std::alloc::Global;

/// Returns the stops of a problem in ascending order of number.
pub(crate) fn stops_in_order(alloc: Global, problem: &Problem) -> Result<Vec<Stop>, OutOfMemory>
    ensures { IfOk result (λ stops. stops.items ≡ stops_in_order problem.now) }
{
    let mut stops = Vec::new(alloc);
    for number in 0..problem.next_number {
        if let Some(stop) = problem.stop(number) {
            stops.push(*stop)?;
        }
    }
    Ok(stops)
}

/// Returns the part of each route that is drawn.
pub(crate) fn kept_routes(
    alloc: Global,
    problem: &Problem,
    routes: &[Route],
) -> Result<Vec<Route>, OutOfMemory>
    ensures kept { IfOk result (λ kept. kept.items ≡ map (kept_of problem.now) routes.now) }
    ensures once { IfOk result (λ kept. All (AreDistinctStops problem.now) kept.items) }
{
    let mut kept = Vec::new(alloc);
    for route in routes {
        kept.push(kept_route(alloc, problem, route.as_slice())?)?;
    }
    Ok(kept)
}

// Returns the stops of a route that the problem has, each at its first place.
fn kept_route(alloc: Global, problem: &Problem, route: &[u32]) -> Result<Route, OutOfMemory>
    ensures kept { IfOk result (λ kept. kept ≡ kept_of problem.now route.now) }
    ensures once { IfOk result (AreDistinctStops problem.now) }
{
    let mut kept = Route::new(alloc);
    for number in route {
        if is_new(problem, kept.as_slice(), *number) {
            kept.push(*number)?;
        }
    }
    Ok(kept)
}

fn is_new(problem: &Problem, kept: &[u32], number: u32) -> bool
    ensures { result ≡ is_new problem.now kept.now number }
{
    problem.stop(number).is_some() && !kept.contains(&number)
}

/// Returns the stops of a route, in its order.
pub(crate) fn stops_along(
    alloc: Global,
    problem: &Problem,
    route: &[u32],
) -> Result<Vec<Stop>, OutOfMemory>
    ensures { IfOk result (λ stops. stops.items ≡ stops_along problem.now route.now) }
{
    let mut stops = Vec::new(alloc);
    for number in route {
        if let Some(stop) = problem.stop(*number) {
            stops.push(*stop)?;
        }
    }
    Ok(stops)
}

/// Returns the stop with this number among these.
pub(crate) fn stop_among(number: u32, stops: &[Stop]) -> Option<&Stop>
    ensures { option_copied result ≡ stop_among number stops.now }
{
    for stop in stops {
        if stop.number == number {
            return Some(stop);
        }
    }
    None
}

/// Returns the stops that are in no route.
pub(crate) fn unserved(
    alloc: Global,
    routes: &[Route],
    stops: &[Stop],
) -> Result<Vec<Stop>, OutOfMemory>
    ensures { IfOk result (λ left. left.items ≡ unserved routes.now stops.now) }
{
    let mut left = Vec::new(alloc);
    for stop in stops {
        keep_unserved(&mut left, routes, stop)?;
    }
    Ok(left)
}

fn keep_unserved(left: &mut Vec<Stop>, routes: &[Route], stop: &Stop) -> Result<(), OutOfMemory>
    ensures { OnOk result (left.new.items ≡ left.old.items ++ unserved_one routes.now stop.now) }
{
    if is_served(routes, stop.number) {
        return Ok(());
    }
    left.push(*stop)?;
    Ok(())
}

// Returns whether a route has this stop.
fn is_served(routes: &[Route], number: u32) -> bool
    ensures { result ≡ is_served routes.now number }
{
    for route in routes {
        if route.as_slice().contains(&number) {
            return true;
        }
    }
    false
}
