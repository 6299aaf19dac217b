//! A problem, routes and pins restricted to some of the vehicles, and routes of all vehicles again.
ghost use Rattle.std.specs.Prelude.{◌≡◌, IfOk, length};
ghost use Rattle.plan_types.specs.Limits.{IsFleet};
ghost use Rattle.fleet_reduction.specs.Fleets.{list_at, marked, picked, put_back, with_fleet};

use plan_types::{OutOfMemory, Problem, Route, Routes};
use std::alloc::Global;

/// Returns the problem with a fleet of this size.
pub(crate) fn with_fleet(problem: &Problem, fleet: u32) -> Result<Problem, OutOfMemory>
    requires { IsFleet fleet }
    ensures { IfOk result (λ other. other ≡ with_fleet problem.now fleet) }
{
    let mut other = problem.copy()?;
    other.fleet = fleet;
    Ok(other)
}

/// Returns the number of marked vehicles.
pub(crate) fn marked(kept: &[bool]) -> u64
    ensures { result ≡ marked kept.now }
{
    kept.iter().filter(|kept| **kept).count() as u64
}

/// Returns the routes or the pins of the marked vehicles, in order.
pub(crate) fn picked(alloc: Global, kept: &[bool], lists: &[Route]) -> Result<Routes, OutOfMemory>
    ensures { IfOk result (λ routes. routes ≡ picked kept.now lists.now) }
{
    let mut routes = Routes::new(alloc);
    for index in 0..kept.len() {
        if kept[index] {
            routes.push(list_at(alloc, lists, index)?)?;
        }
    }
    Ok(routes)
}

/// Returns these lists at the numbers of the marked vehicles, and empty lists for the others.
pub(crate) fn put_back(alloc: Global, kept: &[bool], lists: &[Route]) -> Result<Routes, OutOfMemory>
    ensures { IfOk result (λ routes. routes ≡ put_back kept.now lists.now) }
{
    let mut routes = Routes::new(alloc);
    let mut next = 0;
    for index in 0..kept.len() {
        if kept[index] {
            routes.push(list_at(alloc, lists, next)?)?;
            next += 1;
        } else {
            routes.push(Route::new(alloc))?;
        }
    }
    Ok(routes)
}

// Returns a copy of the list at this index, or an empty list after the last.
fn list_at(alloc: Global, lists: &[Route], index: usize) -> Result<Route, OutOfMemory>
    ensures { IfOk result (λ list. list ≡ list_at lists.now index) }
{
    match lists.get(index) {
        Some(list) => list.copy(),
        None => Ok(Route::new(alloc)),
    }
}
