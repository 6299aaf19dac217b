//! Routes, plans, pins and costs.
use crate::tests::builders::{most_routes, one_route, route_between, route_of, routes_of};
use plan_types::limits::MAX_STOP_NUMBER;
use plan_types::{Cost, Pins, Plan, Route, Routes};
use std::alloc::Global;
use std::test::Fail;

// Returns whether the copy of a plan is one route of these stops.
fn is_copied(plan: &Plan, stops: &[u32]) -> Result<bool, Fail> {
    match plan.copy()?.routes.into_vec().as_slice() {
        [route] => Ok(route.as_slice() == stops),
        _ => Ok(false),
    }
}

fn copies_one_route(alloc: Global, stops: &[u32]) -> Result<bool, Fail> {
    is_copied(&one_route(alloc, stops)?, stops)
}

#[test]
fn copies_a_plan(rt: HostRuntime) -> Result<(), Fail> {
    assert!(rt; copies_one_route(rt.alloc(), &[2, 1])?);
    Ok(())
}

// Returns the number of pins in a copy of two pins.
fn copied_pins(alloc: Global) -> Result<usize, Fail> {
    let pins = Pins {
        routes: routes_of(alloc, &[3], &[])?,
    };
    Ok(pins.copy()?.routes.as_slice().len())
}

#[test]
fn copies_pins(rt: HostRuntime) -> Result<(), Fail> {
    assert!(rt; copied_pins(rt.alloc())? == 2);
    Ok(())
}

#[test]
fn builds_a_route(rt: HostRuntime) -> Result<(), Fail> {
    let mut route = Route::with_capacity(rt.alloc(), 3)?;
    route.extend_from_slice(&[1, 3])?;
    assert!(rt; route.as_slice() == [1, 3].as_slice());
    Ok(())
}

#[test]
fn inserts_a_stop(rt: HostRuntime) -> Result<(), Fail> {
    let mut route = route_of(rt.alloc(), &[4])?;
    route.insert(0, 5)?;
    assert!(rt; route.as_slice() == [5, 4].as_slice());
    Ok(())
}

// Replaces the second stop by 6, removes the first one and returns it.
fn edit_stops(route: &mut Route) -> u32 {
    if route.as_slice().len() < 2 {
        return 0;
    }
    route.set(1, 6);
    route.remove(0)
}

#[test]
fn edits_stops_in_place(rt: HostRuntime) -> Result<(), Fail> {
    let mut route = route_of(rt.alloc(), &[5, 4])?;
    assert!(rt; edit_stops(&mut route) == 5);
    assert!(rt; route.as_slice() == [6].as_slice());
    Ok(())
}

// Returns whether these are two routes with these stops.
fn are_two(routes: &Routes, first: &[u32], second: &[u32]) -> bool {
    match routes.as_slice() {
        [a, b] => a.as_slice() == first && b.as_slice() == second,
        _ => false,
    }
}

// Returns the routes of two vehicles, the first of which stays at the depot.
fn second_alone(alloc: Global) -> Result<Routes, Fail> {
    let mut routes = Routes::with_capacity(alloc, 2)?;
    for stops in [[].as_slice(), [2, 1].as_slice()] {
        routes.push(route_of(alloc, stops)?)?;
    }
    Ok(routes)
}

#[test]
fn builds_routes(rt: HostRuntime) -> Result<(), Fail> {
    assert!(rt; are_two(&second_alone(rt.alloc())?, &[], &[2, 1]));
    assert!(rt; Routes::new(rt.alloc()).as_slice().is_empty());
    Ok(())
}

// Replaces the first route, and inserts a stop at its beginning.
fn set_first(routes: &mut Routes, route: Route, stop: u32) -> Result<(), Fail> {
    if !routes.as_slice().is_empty() {
        routes.set(0, route);
        routes.route_mut(0).insert(0, stop)?;
    }
    Ok(())
}

#[test]
fn edits_routes(rt: HostRuntime) -> Result<(), Fail> {
    let mut routes = routes_of(rt.alloc(), &[], &[2, 1])?;
    set_first(&mut routes, route_of(rt.alloc(), &[4])?, 6)?;
    assert!(rt; are_two(&routes, &[6, 4], &[2, 1]));
    Ok(())
}

// Removes the first route, so that its vehicle stays at the depot, and returns whether the route had these stops.
fn takes_first(alloc: Global, routes: &mut Routes, stops: &[u32]) -> bool {
    if routes.as_slice().is_empty() {
        return false;
    }
    routes.replace(0, Route::new(alloc)).as_slice() == stops
}

#[test]
fn removes_a_route(rt: HostRuntime) -> Result<(), Fail> {
    let mut routes = routes_of(rt.alloc(), &[2, 1], &[3])?;
    assert!(rt; takes_first(rt.alloc(), &mut routes, &[2, 1]));
    assert!(rt; are_two(&routes, &[], &[3]));
    Ok(())
}

#[test]
fn copies_the_largest_route(rt: HostRuntime) -> Result<(), Fail> {
    let route = route_between(rt.alloc(), 1, MAX_STOP_NUMBER)?;
    let copy = route.copy()?;
    assert!(rt; copy.as_slice() == route.as_slice());
    Ok(())
}

// Returns whether the route of each vehicle, numbered from 1, has only the stop with the vehicle's number.
fn are_singles(routes: &[Route]) -> bool {
    let mut number = 0u32;
    for route in routes {
        number = number.saturating_add(1);
        if route.as_slice() != [number].as_slice() {
            return false;
        }
    }
    true
}

#[test]
fn copies_the_largest_plan(rt: HostRuntime) -> Result<(), Fail> {
    let plan = Plan {
        routes: most_routes(rt.alloc(), 1)?,
    };
    let routes = plan.copy()?.routes.into_vec();
    assert!(rt; routes.len() == 40_000 && are_singles(&routes));
    Ok(())
}

fn cost(unplanned: u64, vehicles: u64, distance: u64) -> Cost {
    Cost {
        unplanned,
        vehicles,
        distance,
    }
}

#[test]
fn compares_costs_part_by_part(rt: HostRuntime) {
    assert!(rt; cost(0, 2, 9) < cost(0, 3, 1));
    assert!(rt; cost(0, 3, 1) < cost(1, 0, 0));
    assert!(rt; cost(1, 0, 0) < cost(1, 0, 1));
}
