//! Costs and insertions, the slow way.
ghost use Rattle.std.specs.Prelude.{◌≡◌, true, IfOk, IfSome};
ghost use Rattle.plan_audit.specs.Passes.{passes};

use move_ops::{best_insertion, insert_at};
use plan_audit::{Verdict, audit, passes_decides_the_verdict};
use plan_types::{Cost, OutOfMemory, Pins, Plan, Problem, Request, Route, Routes};
use std::alloc::Global;

/// Returns the cost of the plan if it passes.
pub(crate) fn cost(
    alloc: Global,
    problem: &Problem,
    pins: &Pins,
    plan: &Plan,
) -> Result<Option<Cost>, OutOfMemory>
    ensures { IfOk result (λ o. IfSome o
        (λ _. passes problem.now pins.now.routes plan.now.routes ≡ true)) }
{
    passes_decides_the_verdict();
    match audit(alloc, problem, pins, plan)? {
        Verdict::Pass(cost) => Ok(Some(cost)),
        Verdict::Broken { .. } => Ok(None),
    }
}

/// Builds a plan from the requests in ascending order of name: inserts each at its best place, or each into an
/// empty vehicle while there is one.
pub(crate) fn built(
    alloc: Global,
    problem: &Problem,
    is_spread: bool,
) -> Result<Plan, OutOfMemory> {
    let pins = Pins {
        routes: Routes::new(alloc),
    };
    let mut routes = Routes::new(alloc);
    for _ in 0..problem.fleet {
        routes.push(Route::new(alloc))?;
    }
    let mut plan = Plan { routes };
    for index in 0..problem.requests.len() {
        if let Some((name, request)) = problem.requests.get_index(index) {
            if is_spread {
                plan = in_empty_vehicle(alloc, problem, &pins, plan, request, index)?;
            }
            plan = placed(alloc, problem, &pins, plan, *name)?;
        }
    }
    Ok(plan)
}

// Returns the plan with the request inserted into vehicle `before` + 1 as its whole route, or the plan unchanged
// if that is not possible.
fn in_empty_vehicle(
    alloc: Global,
    problem: &Problem,
    pins: &Pins,
    plan: Plan,
    request: &Request,
    before: usize,
) -> Result<Plan, OutOfMemory> {
    if cost(alloc, problem, pins, &plan)?.is_none() {
        return Ok(plan);
    }
    let vehicle = (before as u64).saturating_add(1);
    let delivery = match request {
        Request::Single(_) => 1,
        Request::Pair(_, _) => 2,
    };
    match insert_at(
        alloc,
        problem,
        pins,
        &plan,
        request.name(),
        (vehicle, 1, delivery),
    )? {
        Some(new) => Ok(new),
        None => Ok(plan),
    }
}

/// Returns the plan with the request inserted at its best place, or unchanged.
pub(crate) fn placed(
    alloc: Global,
    problem: &Problem,
    pins: &Pins,
    plan: Plan,
    name: u32,
) -> Result<Plan, OutOfMemory> {
    if cost(alloc, problem, pins, &plan)?.is_none() {
        return Ok(plan);
    }
    let Some(insertion) = best_insertion(alloc, problem, pins, &plan, name)? else {
        return Ok(plan);
    };
    match insert_at(alloc, problem, pins, &plan, name, insertion)? {
        Some(new) => Ok(new),
        None => Ok(plan),
    }
}

/// Returns pins of the first `stops` stops of each route.
pub(crate) fn pins_of(alloc: Global, plan: &Plan, stops: usize) -> Result<Pins, OutOfMemory> {
    let mut routes = Routes::new(alloc);
    for route in plan.routes.as_slice() {
        let kept = stops.min(route.as_slice().len());
        let mut pin = Route::new(alloc);
        pin.extend_from_slice(&route.as_slice()[..kept])?;
        routes.push(pin)?;
    }
    Ok(Pins { routes })
}

pub(crate) fn are_same(one: &Plan, other: &Plan) -> bool {
    let (one, other) = (one.routes.as_slice(), other.routes.as_slice());
    one.len() == other.len()
        && one
            .iter()
            .zip(other)
            .all(|(a, b)| a.as_slice() == b.as_slice())
}

/// Returns whether a route has a stop of the request.
pub(crate) fn serves(routes: &Routes, request: &Request) -> bool {
    routes.as_slice().iter().any(|route| match request {
        Request::Single(stop) => route.as_slice().contains(&stop.number),
        Request::Pair(pickup, delivery) => {
            route.as_slice().contains(&pickup.number) || route.as_slice().contains(&delivery.number)
        }
    })
}
