//! Rules 1 to 5, on positions of stops.
ghost use Rattle.std.specs.Prelude.{◌≡◌, ◌+◌, ◌<◌, ◌^◌, ◌++◌, IfOk, OnOk};
ghost use Rattle.rule_violations.specs.Violations.{is_early_delivery, is_repeated, is_split, missing_violation, position_at, stop_violation, stop_violations, stop_test, violations_at_places};

use crate::positions::{PrintedPosition, first_position};
use crate::violations::{Violation, add, violation_if};
use plan_audit::Rule;
use plan_types::{OutOfMemory, Problem, Route};
use route_sched::has_stop;
use std::alloc::Global;

/// Returns the violations of a rule on stops.
pub(crate) fn stop_violations(
    alloc: Global,
    problem: &Problem,
    routes: &[Route],
    rule: Rule,
) -> Result<Vec<Violation>, OutOfMemory>
    ensures { IfOk result (λ found. found.items ≡ stop_violations problem.now routes.now rule) }
{
    let mut found = Vec::new(alloc);
    add_stop_violations(&mut found, problem, routes, rule)?;
    Ok(found)
}

/// Appends the violations of a rule on stops.
pub(crate) fn add_stop_violations(
    found: &mut Vec<Violation>,
    problem: &Problem,
    routes: &[Route],
    rule: Rule,
) -> Result<(), OutOfMemory>
    ensures { OnOk result (found.new.items ≡ found.old.items
        ++ stop_violations problem.now routes.now rule) }
{
    for (number, route) in routes.iter().enumerate() {
        add_stops(found, problem, routes, rule, number, route.as_slice())?;
    }
    Ok(())
}

// Appends the violations of one route.
fn add_stops(
    found: &mut Vec<Violation>,
    problem: &Problem,
    routes: &[Route],
    rule: Rule,
    number: usize,
    route: &[u32],
) -> Result<(), OutOfMemory>
    requires { number + 1 < 2 ^ 64 }
    ensures { OnOk result (found.new.items ≡ found.old.items
        ++ violations_at_places (stop_test problem.now routes.now rule) number route.now) }
{
    for (place, stop) in route.iter().enumerate() {
        let position = position_at(number, place);
        add(
            found,
            stop_violation(problem, routes, rule, position, *stop),
        )?;
    }
    Ok(())
}

/// Returns the position with route and place counted from 1.
pub(crate) fn position_at(number: usize, place: usize) -> PrintedPosition
    requires route { number + 1 < 2 ^ 64 }
    requires place { place + 1 < 2 ^ 64 }
    ensures { result ≡ position_at number place }
{
    PrintedPosition {
        route: number as u64 + 1,
        place: place as u64 + 1,
    }
}

fn stop_violation(
    problem: &Problem,
    routes: &[Route],
    rule: Rule,
    position: PrintedPosition,
    stop: u32,
) -> Option<Violation>
    ensures { result ≡ stop_violation problem.now routes.now rule position stop }
{
    match rule {
        Rule::UnknownStop => violation_if(problem.stop(stop).is_none(), position, stop, 0),
        Rule::VisitedTwice => violation_if(
            is_repeated(position, first_position(routes, stop)),
            position,
            stop,
            0,
        ),
        Rule::MissingStop => missing_violation(routes, position, problem.partner_of(stop)),
        Rule::SplitPair => {
            violation_if(
                is_split(routes, position, problem.partner_of(stop)),
                position,
                stop,
                0,
            )
        }
        Rule::EarlyDelivery => {
            violation_if(
                is_early_delivery(routes, position, problem.pickup_of(stop)),
                position,
                stop,
                0,
            )
        }
        _ => None,
    }
}

// Returns whether the stop has a first position, and that is not this position.
fn is_repeated(position: PrintedPosition, first: Option<PrintedPosition>) -> bool
    ensures { result ≡ is_repeated position first }
{
    match first {
        Some(first) => first.route != position.route || first.place != position.place,
        None => false,
    }
}

// Returns the violation if the other stop of the pair is in no route.
fn missing_violation(
    routes: &[Route],
    position: PrintedPosition,
    other: Option<u32>,
) -> Option<Violation>
    ensures { result ≡ missing_violation routes.now position other }
{
    let other = other?;
    violation_if(!has_stop(routes, other), position, other, 0)
}

// Returns whether the other stop of the pair is in another route.
fn is_split(routes: &[Route], position: PrintedPosition, other: Option<u32>) -> bool
    ensures { result ≡ is_split routes.now position other }
{
    let Some(other) = other else {
        return false;
    };
    match first_position(routes, other) {
        Some(first) => first.route != position.route,
        None => false,
    }
}

// Returns whether the pickup is later in the route.
fn is_early_delivery(routes: &[Route], position: PrintedPosition, pickup: Option<u32>) -> bool
    ensures { result ≡ is_early_delivery routes.now position pickup }
{
    let Some(pickup) = pickup else {
        return false;
    };
    match first_position(routes, pickup) {
        Some(first) => first.route == position.route && first.place > position.place,
        None => false,
    }
}
