//! Rules 6 and 7, on loads and times of stops, with one pass along each route.
ghost use Rattle.std.specs.Prelude.{◌≡◌, ◌+◌, ◌-ℤ◌, ◌<◌, ◌^◌, ◌++◌, All, IfOk, OnOk, pos, unsigned_abs};
ghost use Rattle.route_sched.specs.Route.{AreDistinctStops};
ghost use Rattle.rule_violations.specs.Violations.{visit_violation, visit_violations, visit_test, violations_at_places};

use crate::limits::{is_late, is_overload};
use crate::positions::PrintedPosition;
use crate::stops::position_at;
use crate::violations::{Violation, add, violation_if};
use plan_audit::Rule;
use plan_types::{OutOfMemory, Problem, Route};
use route_sched::{Visit, Visits};
use std::alloc::Global;

/// Returns the violations of a rule on visits.
pub(crate) fn visit_violations(
    alloc: Global,
    problem: &Problem,
    routes: &[Route],
    rule: Rule,
) -> Result<Vec<Violation>, OutOfMemory>
    requires { All (AreDistinctStops problem.now) routes.now }
    ensures { IfOk result (λ found. found.items ≡ visit_violations problem.now routes.now rule) }
{
    let mut found = Vec::new(alloc);
    for (number, route) in routes.iter().enumerate() {
        add_visits(&mut found, problem, rule, number, route.as_slice())?;
    }
    Ok(found)
}

// Appends the violations of one route.
fn add_visits(
    found: &mut Vec<Violation>,
    problem: &Problem,
    rule: Rule,
    number: usize,
    route: &[u32],
) -> Result<(), OutOfMemory>
    requires once { AreDistinctStops problem.now route.now }
    requires fits { number + 1 < 2 ^ 64 }
    ensures { OnOk result (found.new.items ≡ found.old.items
        ++ violations_at_places (visit_test problem.now rule) number route.now) }
{
    let mut visits = Visits::new(problem, route);
    for (place, stop) in route.iter().enumerate() {
        let Some(visit) = visits.next() else {
            break;
        };
        let position = position_at(number, place);
        add(
            found,
            visit_violation(problem, rule, position, *stop, &visit),
        )?;
    }
    Ok(())
}

fn visit_violation(
    problem: &Problem,
    rule: Rule,
    position: PrintedPosition,
    stop: u32,
    visit: &Visit,
) -> Option<Violation>
    ensures { result ≡ visit_violation problem.now rule position stop visit.now }
{
    match rule {
        Rule::Load => violation_if(
            is_overload(problem, visit.load),
            position,
            stop,
            excess_load(visit.load, problem.capacity),
        ),
        Rule::Late => violation_if(
            is_late(problem, visit.start, visit.stop.latest),
            position,
            stop,
            visit.start.saturating_sub(u64::from(visit.stop.latest)),
        ),
        _ => None,
    }
}

// Returns the difference of a load and the capacity.
fn excess_load(load: i64, capacity: u32) -> u64
    ensures { result ≡ unsigned_abs (load -ℤ pos capacity) }
{
    load.abs_diff(i64::from(capacity))
}
