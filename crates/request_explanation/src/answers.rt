//! The whole answer.
ghost use Rattle.std.specs.Prelude.{◌≡◌, ◌++◌, ◌+◌, true, false, All, IfOk, IfSome, OnErr, OnOk, string_bytes};
ghost use Rattle.std.specs.Option.{option_copied, option_map};
ghost use Rattle.plan_types.specs.Instance.{request_with};
ghost use Rattle.route_sched.specs.Cost.{is_planned};
ghost use Rattle.route_sched.specs.Route.{AreDistinctStops};
ghost use Rattle.plan_audit.specs.Passes.{passes};
ghost use Rattle.move_ops.specs.Insertion.{request_named};
ghost use Rattle.request_explanation.specs.LimitViolations.{violation_of};
ghost use Rattle.request_explanation.specs.TrialConditions.{CanBeTried};
ghost use Rattle.request_explanation.specs.Trials.{MayTake};
ghost use Rattle.request_explanation.specs.Why.{alone_route, is_stop_of, reason_text, services_from, services_in, services_text, all_outcomes_text, unplanned_text, used_trial, vehicles_from, why_at, why_text};

use crate::limit_violations::{LimitViolation, violation_of};
use crate::line_prefixes::LinePrefix;
use crate::sentences::{put_alone, put_fleet, put_service, put_trial};
use crate::trials::{Trial, best_trial};
use crate::words::{Word, put_word};
use move_ops::route_of;
use plan_audit::{passing_is_local, plans_are_disjoint_routes};
use plan_explain::{Row, rows_of};
use plan_types::{OutOfMemory, Pins, Plan, Problem, Request, Route, requests_are_found_by_stop};
use route_sched::is_planned;
use std::alloc::Global;
use text_buffer::TextBuffer;

/// Returns why the request that has this stop is where it is, or in no route, in whole lines. Returns `None` if
/// no request has the stop.
///
/// For a planned request the text has the vehicle, the place and the time of each service. For an unplanned one
/// it has the first limit that a vehicle exceeds if it serves only this request. If there is none, it has the
/// best trial with each used vehicle, and how many vehicles are used.
///
/// Vehicles and places count from 1. Times are in the problem's unit, loads in the unit of its demands. For
/// each choice of two places in a route, the running time grows with the number of later places up to the first
/// violation.
pub fn why(
    alloc: Global,
    problem: &Problem,
    pins: &Pins,
    plan: &Plan,
    stop: u32,
) -> Result<Option<String>, OutOfMemory>
    requires { passes problem.now pins.now.routes plan.now.routes ≡ true }
    ensures { IfOk result (λ text. option_map string_bytes text
        ≡ why_at problem.now pins.now.routes plan.now.routes stop) }
{
    let Some(request) = request_at(problem, stop) else {
        return Ok(None);
    };
    let routes = passing_routes(problem, pins, plan);
    let mut text = TextBuffer::new(alloc);
    put_why(
        alloc,
        &mut text,
        problem,
        pins.routes.as_slice(),
        routes,
        request,
    )?;
    Ok(Some(text.into_string()?))
}

/// Returns why no route serves the request with this name, with the lines of `why`, each after its prefix.
/// Returns no line if a route has a stop of the request, or no current request has the name.
///
/// The routes may break any rule, but their stops must be known and distinct in each route. The running time is
/// that of `why`.
pub fn reason(
    alloc: Global,
    lead: LinePrefix,
    problem: &Problem,
    pins: &[Route],
    routes: &[Route],
    name: u32,
) -> Result<String, OutOfMemory>
    requires { All (AreDistinctStops problem.now) routes.now }
    ensures { IfOk result (λ text. string_bytes text
        ≡ reason_text lead problem.now pins.now routes.now name) }
{
    let mut text = TextBuffer::new(alloc);
    put_lines(alloc, &mut text, lead, problem, pins, routes, name)?;
    text.into_string()
}

/// Appends the lines of `reason` to a text. If out of memory, the text is unchanged.
pub fn put_reason(
    alloc: Global,
    text: &mut TextBuffer,
    lead: LinePrefix,
    problem: &Problem,
    pins: &[Route],
    routes: &[Route],
    name: u32,
) -> Result<(), OutOfMemory>
    requires { All (AreDistinctStops problem.now) routes.now }
    ensures reported { OnOk result (text.new ≡ text.old
        ++ reason_text lead problem.now pins.now routes.now name) }
    ensures refused { OnErr result (text.new ≡ text.old) }
{
    let reason = reason(alloc, lead, problem, pins, routes, name)?;
    text.push_str(reason.as_str());
    Ok(())
}

// Appends the lines of `reason`, or only some of them if out of memory.
fn put_lines(
    alloc: Global,
    text: &mut TextBuffer,
    lead: LinePrefix,
    problem: &Problem,
    pins: &[Route],
    routes: &[Route],
    name: u32,
) -> Result<(), OutOfMemory>
    requires { All (AreDistinctStops problem.now) routes.now }
    ensures { OnOk result (text.new ≡ text.old
        ++ reason_text lead problem.now pins.now routes.now name) }
{
    let Some(request) = current_request(problem, name) else {
        return Ok(());
    };
    if is_planned(routes, request) {
        return Ok(());
    }
    let lead = lead.text(alloc, name)?;
    put_unplanned(alloc, text, lead.as_str(), problem, pins, routes, request)
}

// Returns the routes of a plan that passes. The stops of each are known and distinct.
fn passing_routes<'a>(problem: &Problem, pins: &Pins, plan: &'a Plan) -> &'a [Route]
    requires { passes problem.now pins.now.routes plan.now.routes ≡ true }
    ensures same { result.now ≡ plan.now.routes }
    ensures once { All (AreDistinctStops problem.now) result.now }
{
    passing_is_local();
    plans_are_disjoint_routes();
    plan.routes.as_slice()
}

// Returns the current request of this name. The caller may try it alone, and in each route that has none of its
// stops.
fn current_request(problem: &Problem, name: u32) -> Option<&Request>
    ensures named { option_copied result ≡ request_named problem.now name }
    ensures tried { IfSome result (λ request. CanBeTried problem.now request.now) }
{
    requests_are_found_by_stop();
    problem.requests.get(&name)
}

// Returns the request that has this stop. The caller may try it alone, and in each route that has none of its
// stops.
fn request_at(problem: &Problem, stop: u32) -> Option<&Request>
    ensures found { option_copied result ≡ request_with problem.now stop }
    ensures tried { IfSome result (λ request. CanBeTried problem.now request.now) }
{
    match problem.name_of(stop) {
        Some(name) => current_request(problem, name),
        None => None,
    }
}

// Appends the services of a planned request, or the reason why a request is unplanned.
fn put_why(
    alloc: Global,
    text: &mut TextBuffer,
    problem: &Problem,
    pins: &[Route],
    routes: &[Route],
    request: &Request,
) -> Result<(), OutOfMemory>
    requires request { CanBeTried problem.now request.now }
    requires routes { All (AreDistinctStops problem.now) routes.now }
    ensures { OnOk result (text.new ≡ text.old
        ++ why_text problem.now pins.now routes.now request.now) }
{
    if is_planned(routes, request) {
        return put_services(alloc, text, problem, request, routes);
    }
    put_unplanned(alloc, text, "", problem, pins, routes, request)
}

// Appends why a request is in no route, each line after the prefix `lead`.
fn put_unplanned(
    alloc: Global,
    text: &mut TextBuffer,
    lead: &str,
    problem: &Problem,
    pins: &[Route],
    routes: &[Route],
    request: &Request,
) -> Result<(), OutOfMemory>
    requires request { CanBeTried problem.now request.now }
    requires routes { All (AreDistinctStops problem.now) routes.now }
    requires free { is_planned routes.now request.now ≡ false }
    ensures { OnOk result (text.new ≡ text.old
        ++ unplanned_text lead.now problem.now pins.now routes.now request.now) }
{
    match violation_alone(alloc, problem, request)? {
        Some(violation) => {
            put_alone(text, lead, &violation);
            Ok(())
        }
        None => put_all_outcomes(alloc, text, lead, problem, pins, routes, request),
    }
}

// Appends each service of the request.
fn put_services(
    alloc: Global,
    text: &mut TextBuffer,
    problem: &Problem,
    request: &Request,
    routes: &[Route],
) -> Result<(), OutOfMemory>
    requires { All (AreDistinctStops problem.now) routes.now }
    ensures { OnOk result (text.new ≡ text.old
        ++ services_from problem.now request.now 1 routes.now) }
{
    for (place, route) in routes.iter().enumerate() {
        put_route(
            alloc,
            text,
            problem,
            request,
            place as u64 + 1,
            route.as_slice(),
        )?;
    }
    Ok(())
}

// Appends the services of one vehicle.
fn put_route(
    alloc: Global,
    text: &mut TextBuffer,
    problem: &Problem,
    request: &Request,
    vehicle: u64,
    route: &[u32],
) -> Result<(), OutOfMemory>
    requires { AreDistinctStops problem.now route.now }
    ensures { OnOk result (text.new ≡ text.old
        ++ services_text problem.now request.now vehicle route.now) }
{
    let rows = rows_of(alloc, problem, route)?;
    put_rows(text, problem, request, vehicle, rows.as_slice());
    Ok(())
}

fn put_rows(text: &mut TextBuffer, problem: &Problem, request: &Request, vehicle: u64, rows: &[Row])
    ensures { text.new ≡ text.old
        ++ services_in problem.now.kind request.now vehicle rows.now }
{
    for row in rows {
        if is_stop_of(request, row) {
            put_service(text, problem.kind, vehicle, row);
        }
    }
}

fn is_stop_of(request: &Request, row: &Row) -> bool
    ensures { result ≡ is_stop_of request.now row.now }
{
    match request {
        Request::Single(stop) => stop.number == row.stop,
        Request::Pair(pickup, delivery) => {
            pickup.number == row.stop || delivery.number == row.stop
        }
    }
}

// Returns the first limit exceeded by a vehicle that serves only the request.
fn violation_alone(
    alloc: Global,
    problem: &Problem,
    request: &Request,
) -> Result<Option<LimitViolation>, OutOfMemory>
    requires { AreDistinctStops problem.now (alone_route request.now) }
    ensures { IfOk result (λ violation. violation ≡ violation_of problem.now (alone_route request.now)) }
{
    match request {
        Request::Single(stop) => violation_of(alloc, problem, &[stop.number]),
        Request::Pair(pickup, delivery) => {
            violation_of(alloc, problem, &[pickup.number, delivery.number])
        }
    }
}

// Appends the outcome of a request that a vehicle could serve alone.
fn put_all_outcomes(
    alloc: Global,
    text: &mut TextBuffer,
    lead: &str,
    problem: &Problem,
    pins: &[Route],
    routes: &[Route],
    request: &Request,
) -> Result<(), OutOfMemory>
    requires { All (MayTake problem.now request.now) routes.now }
    ensures { OnOk result (text.new ≡ text.old
        ++ all_outcomes_text lead.now problem.now pins.now routes.now request.now) }
{
    text.push_str(lead);
    put_word(text, Word::AloneFits);
    put_vehicles(alloc, text, lead, problem, pins, routes, request)?;
    put_fleet(text, lead, problem, routes);
    Ok(())
}

// Appends the outcome of the request with each used vehicle.
fn put_vehicles(
    alloc: Global,
    text: &mut TextBuffer,
    lead: &str,
    problem: &Problem,
    pins: &[Route],
    routes: &[Route],
    request: &Request,
) -> Result<(), OutOfMemory>
    requires { All (MayTake problem.now request.now) routes.now }
    ensures { OnOk result (text.new ≡ text.old
        ++ vehicles_from lead.now problem.now pins.now request.now 1 routes.now) }
{
    for (place, route) in routes.iter().enumerate() {
        let vehicle = place as u64 + 1;
        let kept = route_of(pins, vehicle).len();
        let best = used_trial(alloc, problem, request, kept, route.as_slice())?;
        put_trial(text, lead, vehicle, &best);
    }
    Ok(())
}

// Returns the best trial with a vehicle, if the vehicle is used.
fn used_trial(
    alloc: Global,
    problem: &Problem,
    request: &Request,
    kept: usize,
    route: &[u32],
) -> Result<Option<Trial>, OutOfMemory>
    requires { MayTake problem.now request.now route.now }
    ensures { IfOk result (λ best. best ≡ used_trial problem.now request.now kept route.now) }
{
    if route.is_empty() {
        return Ok(None);
    }
    best_trial(alloc, problem, route, request, kept)
}
