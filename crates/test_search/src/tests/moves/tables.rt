//! The tables of a plan's routes, rebuilt for the routes that change.
ghost use Rattle.std.specs.Prelude.{◌≡◌, true, false, [], IsTrue};
ghost use Rattle.plan_audit.specs.Passes.{has, passes};
ghost use Rattle.move_ops.specs.Insertion.{route_of};
ghost use Rattle.move_ops.specs.Tables.{AreVehicles, DifferOnlyAt};

use crate::tests::builders::{FOUR, TestProblem, case_of, is_passing, plan_of};
use move_ops::{Tables, plans_pass_without_pins};
use plan_types::{Pins, Plan, Problem, Route};
use std::alloc::Global;
use std::test::Fail;

// Returns whether the tables of the plan `before` become those of the plan `after` when the tables of these
// vehicles are rebuilt.
fn is_refreshed(
    alloc: Global,
    problem: &Problem,
    pins: &Pins,
    before: &Plan,
    after: &Plan,
    vehicles: &[u32],
) -> Result<bool, Fail> {
    plans_pass_without_pins();
    if !is_passing(alloc, problem, pins, before)? {
        return Ok(false);
    }
    if !is_passing(alloc, problem, pins, after)? {
        return Ok(false);
    }
    refreshes(alloc, problem, before, after, vehicles)
}

fn refreshes(
    alloc: Global,
    problem: &Problem,
    before: &Plan,
    after: &Plan,
    vehicles: &[u32],
) -> Result<bool, Fail>
    requires before { passes problem.now [] before.now.routes ≡ true }
    requires after { passes problem.now [] after.now.routes ≡ true }
{
    if !are_vehicles(problem, vehicles) {
        return Ok(false);
    }
    if !differ_only_at(before, after, vehicles) {
        return Ok(false);
    }
    let mut tables = Tables::build(alloc, problem, before)?;
    let refreshed = tables.refresh(problem, after, vehicles);
    let shown = shown(alloc, &tables);
    drop(tables);
    let shown = shown?;
    refreshed?;
    Ok(shown == rebuilt_text(alloc, problem, after)?)
}

fn shown(alloc: Global, tables: &Tables) -> Result<String, Fail> {
    Ok(format!(in alloc; "{tables:?}")?)
}

fn rebuilt_text(alloc: Global, problem: &Problem, plan: &Plan) -> Result<String, Fail>
    requires { passes problem.now [] plan.now.routes ≡ true }
{
    let tables = Tables::build(alloc, problem, plan)?;
    let shown = shown(alloc, &tables);
    drop(tables);
    shown
}

fn are_vehicles(problem: &Problem, vehicles: &[u32]) -> bool
    ensures { IsTrue result → AreVehicles problem.now vehicles.now }
{
    for vehicle in vehicles {
        if *vehicle < 1 || problem.fleet < *vehicle {
            return false;
        }
    }
    true
}

// Returns whether the plans have the same number of routes, and differ only at these vehicles.
fn differ_only_at(before: &Plan, after: &Plan, vehicles: &[u32]) -> bool
    ensures { IsTrue result → DifferOnlyAt vehicles.now before.now.routes after.now.routes }
{
    let old = before.routes.as_slice();
    let new = after.routes.as_slice();
    if old.len() != new.len() {
        return false;
    }
    if old.len() > 40_000 {
        return false;
    }
    for vehicle in 0..old.len() as u32 + 1 {
        if is_in(vehicles, vehicle) {
            continue;
        }
        if !is_same(old, new, vehicle) {
            return false;
        }
    }
    true
}

fn is_in(vehicles: &[u32], vehicle: u32) -> bool
    ensures { result ≡ has vehicles.now vehicle }
{
    vehicles.contains(&vehicle)
}

fn is_same(before: &[Route], after: &[Route], vehicle: u32) -> bool
    ensures { IsTrue result → route_of before.now vehicle ≡ route_of after.now vehicle }
{
    route_of(before, vehicle) == route_of(after, vehicle)
}

fn route_of(routes: &[Route], vehicle: u32) -> &[u32]
    ensures { result.now ≡ route_of routes.now vehicle }
{
    if vehicle == 0 {
        return &[];
    }
    match routes.get((vehicle - 1) as usize) {
        Some(route) => route.as_slice(),
        None => &[],
    }
}

/// A problem, a plan, a changed plan, and the vehicles whose tables are rebuilt.
type Example = (TestProblem, &'static [u32], &'static [u32], &'static [u32]);

const EXAMPLES: [Example; 5] = [
    (
        FOUR,
        &[1, 0, 2, 3, 0, 4, 0, 0],
        &[1, 0, 2, 3, 0, 4, 0, 0],
        &[4, 4],
    ),
    (
        FOUR,
        &[1, 0, 2, 3, 0, 4, 0, 0],
        &[1, 0, 3, 0, 4, 2, 0, 0],
        &[3, 2],
    ),
    (
        FOUR,
        &[1, 0, 2, 3, 0, 4, 0, 0],
        &[0, 1, 2, 3, 0, 4, 0, 0],
        &[2, 1],
    ),
    (TestProblem::Pairs, &[1, 2, 0], &[1, 3, 4, 2, 0], &[1]),
    (TestProblem::Pairs, &[1, 2, 0], &[1, 2, 0], &[]),
];

// Returns whether the refreshed tables of the example are those of its changed plan.
fn is_rebuilt(alloc: Global, example: &Example) -> Result<bool, Fail> {
    let (given, before, after, vehicles) = *example;
    let after = plan_of(alloc, after)?;
    let case = case_of(alloc, given, &[], before)?;
    let is_refreshed = is_refreshed(
        alloc,
        &case.problem,
        &case.pins,
        &case.plan,
        &after,
        vehicles,
    );
    drop(case);
    is_refreshed
}

#[test]
fn tables_are_rebuilt(rt: HostRuntime) -> Result<(), Fail> {
    for example in &EXAMPLES {
        assert!(rt; is_rebuilt(rt.alloc(), example)?);
    }
    Ok(())
}
