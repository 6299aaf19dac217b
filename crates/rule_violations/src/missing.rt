//! Rule 3: requests and stops in no route.
ghost use Rattle.std.specs.Prelude.{◌≡◌, ◌++◌, IfOk, OnOk, slice_get};
ghost use Rattle.std.specs.Option.{option_and_then};
ghost use Rattle.rule_violations.specs.Violations.{violations_of, is_missing, missing_from, missing_stops, unserved_violation, unserved_violations};
ghost use Rattle.plan_audit.specs.declared.rules.Rule.TheVariants.{MissingStop};

use crate::stops::add_stop_violations;
use crate::violations::{Violation, add};
use plan_audit::Rule;
use plan_types::{OutOfMemory, Problem, Route};
use route_sched::{has_stop, is_planned};
use std::alloc::Global;

/// Returns the requests with no stop in any route, then the places whose partner is in no route.
pub(crate) fn missing_violations(
    alloc: Global,
    problem: &Problem,
    routes: &[Route],
) -> Result<Vec<Violation>, OutOfMemory>
    ensures { IfOk result (λ found. found.items ≡ violations_of problem.now routes.now MissingStop) }
{
    let mut found = Vec::new(alloc);
    add_unserved(&mut found, problem, routes)?;
    add_stop_violations(&mut found, problem, routes, Rule::MissingStop)?;
    Ok(found)
}

fn add_unserved(
    found: &mut Vec<Violation>,
    problem: &Problem,
    routes: &[Route],
) -> Result<(), OutOfMemory>
    ensures { OnOk result (found.new.items ≡ found.old.items
        ++ unserved_violations problem.now routes.now) }
{
    for index in 0..problem.requests.len() {
        add(found, unserved_violation(problem, routes, index))?;
    }
    Ok(())
}

// Returns the violation of the request at this index if it is not planned.
fn unserved_violation(problem: &Problem, routes: &[Route], index: usize) -> Option<Violation>
    ensures { result ≡ option_and_then (unserved_violation routes.now)
        (slice_get problem.now.requests index) }
{
    let (name, request) = problem.requests.get_index(index)?;
    if is_planned(routes, request) {
        None
    } else {
        Some(Violation {
            route: 0,
            place: 0,
            stop: *name,
            by: 0,
        })
    }
}

/// Returns the stops of the problem that are in no route, in ascending order of number.
pub fn missing_stops(
    alloc: Global,
    problem: &Problem,
    routes: &[Route],
) -> Result<Vec<u32>, OutOfMemory>
    ensures { IfOk result (λ found. found.items ≡ missing_stops problem.now routes.now) }
{
    let mut found = Vec::new(alloc);
    for stop in 0..problem.next_number {
        add_stop_if_missing(&mut found, problem, routes, stop)?;
    }
    Ok(found)
}

fn add_stop_if_missing(
    found: &mut Vec<u32>,
    problem: &Problem,
    routes: &[Route],
    stop: u32,
) -> Result<(), OutOfMemory>
    ensures { OnOk result (found.new.items ≡ found.old.items
        ++ missing_from problem.now routes.now stop) }
{
    if is_missing(problem, routes, stop) {
        found.push(stop)?;
    }
    Ok(())
}

fn is_missing(problem: &Problem, routes: &[Route], stop: u32) -> bool
    ensures { result ≡ is_missing problem.now routes.now stop }
{
    problem.stop(stop).is_some() && !has_stop(routes, stop)
}
