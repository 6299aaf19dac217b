//! `Withdraw`: removing a request from a job.
ghost use Rattle.std.specs.Prelude.{◌≡◌, None, [], ◌∷◌, All, length, IfOk, IfErr};
ghost use Rattle.plan_types.specs.Instance.{IsInstance, without_request};
ghost use Rattle.route_sched.specs.Route.{AreDistinctStops};
ghost use Rattle.move_ops.specs.Moves.{is_of_named};
ghost use Rattle.command_core.specs.Effects.{serves, route_without, remaining_route, remaining_routes, withdrawn};
ghost use Rattle.command_core.specs.Refusals.{job_refusal};

use crate::laws::commands_keep_invariants;
use command_types::{Command, Job, JobLists, Refusal};
use plan_audit::{is_feasible, passing_is_local, plans_are_disjoint_routes};
use plan_types::{OutOfMemory, Plan, Problem, Route, Routes, take_removes_one_request};
use std::alloc::Global;

/// Removes the request from the problem and the plan. If the rest of its route is infeasible, only the pinned
/// prefix stays. The time is linear in the problem and the plan, except that `is_feasible` looks for the other
/// stop of each pair in that route.
pub(crate) fn withdraw(alloc: Global, job: &Job, name: u32) -> Result<Job, Refusal>
    requires { job_refusal job.now (Command.Withdraw name) ≡ None }
    ensures ok { IfOk result (λ new. new ≡ withdrawn job.now name) }
    ensures err { IfErr result (λ r. r ≡ Refusal.OutOfMemory) }
{
    commands_keep_invariants();
    let problem = remaining_problem(&job.problem, name)?;
    let lists = remaining_lists(alloc, job, &problem, name)?;
    Ok(job.with_parts(problem, lists))
}

// Returns the problem without the request.
fn remaining_problem(problem: &Problem, name: u32) -> Result<Problem, OutOfMemory>
    ensures { IfOk result (λ new. new ≡ without_request problem.now name) }
{
    let mut problem = problem.copy()?;
    problem.take(name);
    Ok(problem)
}

// Returns the pins, and the routes that remain after the request is removed.
fn remaining_lists(
    alloc: Global,
    job: &Job,
    without: &Problem,
    name: u32,
) -> Result<JobLists, OutOfMemory>
    requires { without.now ≡ without_request job.now.problem name }
    ensures { let left = remaining_routes job.now.problem name job.now.pins job.now.plan in
        IfOk result (λ lists. lists ≡ record {
          pins = record { routes = job.now.pins };
          plan = record { routes = left };
          work = record { routes = left };
        }) }
{
    let plan = Plan {
        routes: remaining_routes(alloc, job, without, name)?,
    };
    let work = plan.copy()?;
    Ok(JobLists {
        pins: job.pins.copy()?,
        plan,
        work,
    })
}

// Returns the routes that remain after the request is removed.
fn remaining_routes(
    alloc: Global,
    job: &Job,
    without: &Problem,
    name: u32,
) -> Result<Routes, OutOfMemory>
    requires { without.now ≡ without_request job.now.problem name }
    ensures { IfOk result (λ new. new
        ≡ remaining_routes job.now.problem name job.now.pins job.now.plan) }
{
    passing_is_local();
    plans_are_disjoint_routes();
    each_remaining_route(
        alloc,
        &job.problem,
        without,
        name,
        job.pins.routes.as_slice(),
        job.plan.routes.as_slice(),
    )
}

fn each_remaining_route(
    alloc: Global,
    problem: &Problem,
    without: &Problem,
    name: u32,
    pins: &[Route],
    routes: &[Route],
) -> Result<Routes, OutOfMemory>
    requires valid { IsInstance problem.now }
    requires taken { without.now ≡ without_request problem.now name }
    requires pins { length pins.now ≡ length routes.now }
    requires distinct { All (AreDistinctStops problem.now) routes.now }
    ensures { IfOk result (λ new. new ≡ remaining_routes problem.now name pins.now routes.now) }
{
    let mut left = Routes::with_capacity(alloc, routes.len())?;
    for (place, route) in routes.iter().enumerate() {
        left.push(remaining_route(alloc, problem, without, name, &pins[place], route)?)?;
    }
    Ok(left)
}

// Returns the route that remains for a vehicle with this pin and route after the request is removed.
fn remaining_route(
    alloc: Global,
    problem: &Problem,
    without: &Problem,
    name: u32,
    pin: &Route,
    route: &Route,
) -> Result<Route, OutOfMemory>
    requires valid { IsInstance problem.now }
    requires taken { without.now ≡ without_request problem.now name }
    requires distinct { AreDistinctStops problem.now route.now }
    ensures { IfOk result (λ new. new ≡ remaining_route problem.now name pin.now route.now) }
{
    take_removes_one_request();
    if !serves(problem, name, route.as_slice()) {
        return route.copy();
    }
    let rest = route_without(alloc, problem, name, route.as_slice())?;
    if is_feasible(without, rest.as_slice()) {
        return Ok(rest);
    }
    pin.copy()
}

// Returns whether the vehicle visits a stop of the request.
fn serves(problem: &Problem, name: u32, stops: &[u32]) -> bool
    ensures { result ≡ serves problem.now name stops.now }
{
    stops.iter().any(|stop| is_stop_of(problem, name, *stop))
}

fn route_without(
    alloc: Global,
    problem: &Problem,
    name: u32,
    stops: &[u32],
) -> Result<Route, OutOfMemory>
    ensures { IfOk result (λ rest. rest ≡ route_without problem.now name stops.now) }
{
    let mut rest = Route::with_capacity(alloc, stops.len())?;
    for stop in stops {
        if !is_stop_of(problem, name, *stop) {
            rest.push(*stop)?;
        }
    }
    Ok(rest)
}

// Returns whether the stop with this number belongs to the request.
fn is_stop_of(problem: &Problem, name: u32, number: u32) -> bool
    ensures { result ≡ is_of_named problem.now (name ∷ []) number }
{
    match problem.name_of(number) {
        Some(found) => found == name,
        None => false,
    }
}
