//! Attempts with fewer vehicles, worked out by hand, from plans and pins that no command builds.
ghost use Rattle.std.specs.Prelude.{◌≡◌, true, length};
ghost use Rattle.plan_audit.specs.Passes.{passes};

use crate::tests::builders::{Case, FOUR_BY_ONE, TestProblem, case_of, stops_of};
use fleet_reduction::reduce_fleet;
use log::sink::Discard;
use plan_types::Kind;
use seeded_search::SearchContext;
use std::alloc::Global;
use std::test::Fail;

/// Three customers on a line, with a fleet of two.
const LINE: TestProblem = TestProblem::Customers(10, 2, &[(1, 0, 1), (2, 0, 1), (3, 0, 1)]);

/// A problem, its kind, pins, a plan, the greatest number of steps, the plan after them, and the number of steps
/// that were made. Vehicles count only in problems of kind `LiLim`.
type Row = (
    TestProblem,
    Kind,
    &'static [u32],
    &'static [u32],
    u32,
    &'static [u32],
    u64,
);

const REDUCED: [Row; 5] = [
    // The vehicle with a pin is kept, though its number is higher. The first step serves the other vehicle's
    // customer after the pin.
    (
        LINE,
        Kind::LiLim,
        &[0, 2, 0],
        &[1, 0, 2, 3, 0],
        20,
        &[0, 2, 3, 1, 0],
        1,
    ),
    (
        LINE,
        Kind::LiLim,
        &[0, 2, 0],
        &[1, 0, 2, 3, 0],
        1,
        &[0, 2, 3, 1, 0],
        1,
    ),
    // The vehicle with a pin is kept, though its route is shorter than the other one. Then no request of its
    // route is movable.
    (
        LINE,
        Kind::LiLim,
        &[0, 2, 0],
        &[1, 3, 0, 2, 0],
        6,
        &[1, 3, 0, 2, 0],
        6,
    ),
    // An empty plan has no movable request, so the attempt with all vehicles fails.
    (LINE, Kind::LiLim, &[0, 0], &[0, 0], 7, &[0, 0], 7),
    // Three vehicles cannot serve four customers who each fill a vehicle.
    (
        FOUR_BY_ONE,
        Kind::LiLim,
        &[0, 0, 0, 0],
        &[1, 0, 2, 0, 3, 0, 4, 0],
        9,
        &[1, 0, 2, 0, 3, 0, 4, 0],
        9,
    ),
];

/// Cases without an attempt.
const NOT_REDUCED: [Row; 5] = [
    // Each used vehicle has a pin.
    (
        LINE,
        Kind::LiLim,
        &[1, 0, 2, 0],
        &[1, 0, 2, 3, 0],
        20,
        &[1, 0, 2, 3, 0],
        0,
    ),
    // One vehicle serves all customers, or there is nothing to serve.
    (
        LINE,
        Kind::LiLim,
        &[0, 0],
        &[3, 2, 1, 0, 0],
        20,
        &[3, 2, 1, 0, 0],
        0,
    ),
    (
        TestProblem::Customers(10, 2, &[]),
        Kind::LiLim,
        &[0, 0],
        &[0, 0],
        20,
        &[0, 0],
        0,
    ),
    // Vehicles do not count, or no steps are to be made.
    (
        LINE,
        Kind::Vrp,
        &[0, 0],
        &[1, 0, 2, 3, 0],
        20,
        &[1, 0, 2, 3, 0],
        0,
    ),
    (
        LINE,
        Kind::LiLim,
        &[0, 0],
        &[1, 0, 2, 3, 0],
        0,
        &[1, 0, 2, 3, 0],
        0,
    ),
];

// Returns the plan after attempts of at most `count` steps, and how many steps were made. Returns `None` if the
// number of pins differs from the fleet, or if the plan does not pass.
fn tried(alloc: Global, case: &Case, count: u32) -> Result<Option<(Vec<u32>, u64)>, Fail> {
    let pinned = case.pins.routes.as_slice().len();
    if pinned != case.problem.fleet as usize || !case.is_passing(alloc)? {
        return Ok(None);
    }
    let context = SearchContext {
        problem: &case.problem,
        pins: &case.pins,
        deviation: 0,
        seed: 0,
    };
    let tried = reduce_fleet(&Discard, alloc, &context, &case.plan, 0, count)?;
    let stops = stops_of(alloc, &tried.plan.routes);
    let step = tried.step;
    drop(tried);
    Ok(Some((stops?, step)))
}

fn is_tried(alloc: Global, row: &Row) -> Result<bool, Fail> {
    let (given, kind, pins, plan, count, found, steps) = *row;
    let mut case = case_of(alloc, given, pins, plan)?;
    case.problem.kind = kind;
    let tried = tried(alloc, &case, count);
    drop(case);
    match tried? {
        Some((stops, made)) => Ok(stops.as_slice() == found && made == steps),
        None => Ok(false),
    }
}

#[test]
fn attempts_by_hand(rt: HostRuntime) -> Result<(), Fail> {
    for row in &REDUCED {
        assert!(rt; is_tried(rt.alloc(), row)?);
    }
    Ok(())
}

#[test]
fn no_attempt(rt: HostRuntime) -> Result<(), Fail> {
    for row in &NOT_REDUCED {
        assert!(rt; is_tried(rt.alloc(), row)?);
    }
    Ok(())
}
