//! The moves from plan to plan. Each builds a draft of the plan, which allocates a table for each route. For
//! several moves keep a `Draft`.
ghost use Rattle.std.specs.Prelude.{◌≡◌, true, Some, None, IfOk, if◌then◌else◌};
ghost use Rattle.std.specs.Option.{option_map};
ghost use Rattle.plan_audit.specs.Passes.{passes};
ghost use Rattle.move_ops.specs.Drafts.{draft_of};
ghost use Rattle.move_ops.specs.Insertion.{best_insertion, inserted_at};
ghost use Rattle.move_ops.specs.Moves.{removed, exchanged, crossed};

use crate::draft::Draft;
use crate::insert::{Insertion, tuple_of};
use plan_types::{OutOfMemory, Pins, Plan, Problem};
use std::alloc::Global;

/// Inserts a request into the route of vehicle `v`. In the new route the pickup is at place `i` and the delivery
/// at place `j`, with `i < j`; a single has `j = i`. Vehicles and places count from 1.
///
/// Returns `None` if the name is not of a current, unplanned request, if these are not valid places after the
/// pin of `v`, or if the result does not pass.
pub fn insert_at(
    alloc: Global,
    problem: &Problem,
    pins: &Pins,
    plan: &Plan,
    name: u32,
    insertion: (u64, u64, u64),
) -> Result<Option<Plan>, OutOfMemory>
    requires { passes problem.now pins.now.routes plan.now.routes ≡ true }
    ensures { IfOk result (λ o. option_map (λ new. new.routes) o
        ≡ inserted_at problem.now pins.now.routes plan.now.routes name insertion) }
{
    let mut draft = Draft::build(alloc, problem, pins, plan)?;
    let made = draft.insert(problem, pins, name, Insertion::from_tuple(insertion))?;
    plan_if(alloc, &draft, made)
}

/// Returns the best insertion of a request into the plan: the vehicle, the pickup's place and the delivery's
/// place for which the result passes and costs the least. Among insertions of equal cost it is the first by
/// vehicle, then by pickup place, then by delivery place. All count from 1, and a single has its place twice.
///
/// Returns `None` if the request has no insertion, or if the name is not of a current, unplanned request.
pub fn best_insertion(
    alloc: Global,
    problem: &Problem,
    pins: &Pins,
    plan: &Plan,
    name: u32,
) -> Result<Option<(u64, u64, u64)>, OutOfMemory>
    requires { passes problem.now pins.now.routes plan.now.routes ≡ true }
    ensures { IfOk result (λ o. o
        ≡ best_insertion problem.now pins.now.routes plan.now.routes name) }
{
    let Some(request) = problem.requests.get(&name) else {
        return Ok(None);
    };
    let draft = Draft::build(alloc, problem, pins, plan)?;
    Ok(tuple_of(draft.best(problem, pins, request)))
}

/// Removes these requests from the plan, all at once. A repeated name counts once; without names the plan stays
/// as it is.
///
/// Returns `None` if one of the names is not of a current, planned request, if one of the requests has a pinned
/// stop, or if the result does not pass.
pub fn remove(
    alloc: Global,
    problem: &Problem,
    pins: &Pins,
    plan: &Plan,
    names: &[u32],
) -> Result<Option<Plan>, OutOfMemory>
    requires { passes problem.now pins.now.routes plan.now.routes ≡ true }
    ensures { IfOk result (λ o. option_map (λ new. new.routes) o
        ≡ removed problem.now pins.now.routes plan.now.routes names.now) }
{
    let mut draft = Draft::build(alloc, problem, pins, plan)?;
    let made = draft.remove(problem, pins, names)?;
    plan_if(alloc, &draft, made)
}

/// Exchanges two requests: each pickup takes the place of the other's pickup, and each delivery the place of
/// the other's delivery.
///
/// Returns `None` if the names are equal, if one of them is not of a current, planned request, if one of the
/// requests has a pinned stop, if one is a single and the other a pair, or if the result does not pass.
pub fn exchange(
    alloc: Global,
    problem: &Problem,
    pins: &Pins,
    plan: &Plan,
    a: u32,
    b: u32,
) -> Result<Option<Plan>, OutOfMemory>
    requires { passes problem.now pins.now.routes plan.now.routes ≡ true }
    ensures { IfOk result (λ o. option_map (λ new. new.routes) o
        ≡ exchanged problem.now pins.now.routes plan.now.routes a b) }
{
    let mut draft = Draft::build(alloc, problem, pins, plan)?;
    let made = draft.exchange(problem, pins, a, b)?;
    plan_if(alloc, &draft, made)
}

/// Exchanges the ends of two routes. The route of `a` becomes its first `a_cut` stops followed by the route of
/// `b` after its first `b_cut` stops, and the other way round. Vehicles count from 1.
///
/// Returns `None` if the vehicles are equal or one does not exist, if a cut is less than the length of the pin
/// or more than that of the route, or if the result does not pass.
pub fn two_opt_star(
    alloc: Global,
    problem: &Problem,
    pins: &Pins,
    plan: &Plan,
    a: u64,
    a_cut: u64,
    b: u64,
    b_cut: u64,
) -> Result<Option<Plan>, OutOfMemory>
    requires { passes problem.now pins.now.routes plan.now.routes ≡ true }
    ensures { IfOk result (λ o. option_map (λ new. new.routes) o
        ≡ crossed problem.now pins.now.routes plan.now.routes a a_cut b b_cut) }
{
    let mut draft = Draft::build(alloc, problem, pins, plan)?;
    let made = draft.cross(problem, pins, a, a_cut, b, b_cut)?;
    plan_if(alloc, &draft, made)
}

// Returns the plan of a draft if a move was made.
fn plan_if(alloc: Global, draft: &Draft, made: bool) -> Result<Option<Plan>, OutOfMemory>
    ensures { IfOk result (λ o. option_map (λ new. new.routes) o
        ≡ (if made then Some (draft_of draft.now) else None)) }
{
    if !made {
        return Ok(None);
    }
    Ok(Some(draft.plan(alloc)?))
}
