//! Starts, loads, distances and costs.
ghost use Rattle.std.specs.Prelude.{◌∷◌, []};
ghost use Rattle.route_sched.specs.Route.{AreDistinctStops};

use crate::tests::builders::{are_distinct_stops, one_pair};
use plan_types::{Cost, Kind, Plan, Problem, Route, Routes};
use route_sched::{Visits, loads, plan_cost, route_distance, starts};
use std::alloc::Global;
use std::test::Fail;

fn is_scheduled(alloc: Global, problem: &Problem) -> Result<bool, Fail>
    requires { AreDistinctStops problem.now (1 ∷ 2 ∷ []) }
{
    let starts = starts(alloc, problem, &[1, 2])?;
    let loads = loads(alloc, problem, &[1, 2])?;
    Ok(starts.as_slice() == [5, 12, 24].as_slice() && loads.as_slice() == [4, 0].as_slice())
}

fn is_measured(problem: &Problem) -> bool
    requires { AreDistinctStops problem.now (1 ∷ 2 ∷ []) }
{
    let visits = Visits::new(problem, &[1, 2]).size_hint();
    route_distance(problem, &[1, 2]) == 20 && visits.0 == 3 && visits.1 == Some(3)
}

// Returns the cost if the first of two vehicles serves the pair.
fn cost_of(alloc: Global, problem: &Problem) -> Result<Cost, Fail>
    requires { AreDistinctStops problem.now (1 ∷ 2 ∷ []) }
{
    let route = Route::from(vec![in alloc; 1, 2]?);
    let routes = Routes::from(vec![in alloc; route, Route::from(Vec::new(alloc))]?);
    Ok(plan_cost(problem, &Plan { routes }))
}

fn is_priced(cost: Cost) -> bool {
    cost.unplanned == 0 && cost.vehicles == 1 && cost.distance == 20
}

// Returns three checks of the route of a pair: of its starts and loads, of its distance and number of visits, and
// of the cost.
fn schedule_checks(alloc: Global, problem: &Problem) -> Result<[bool; 3], Fail> {
    if !are_distinct_stops(problem, &[1, 2]) {
        return Ok([false; 3]);
    }
    Ok([
        is_scheduled(alloc, problem)?,
        is_measured(problem),
        is_priced(cost_of(alloc, problem)?),
    ])
}

fn pair_schedule_checks(alloc: Global) -> Result<[bool; 3], Fail> {
    let problem = one_pair(alloc, Kind::LiLim, 10, 60, 100)?;
    schedule_checks(alloc, &problem)
}

#[test]
fn schedules_a_pair(rt: HostRuntime) -> Result<(), Fail> {
    assert!(rt; pair_schedule_checks(rt.alloc())? == [true; 3]);
    Ok(())
}
