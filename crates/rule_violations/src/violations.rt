//! All violations of a rule.
//!
//! The first position of a stop is found by a search along the routes, so rules 1 to 5 compare each pair of
//! places.
ghost use Rattle.std.specs.Prelude.{◌≡◌, ◌++◌, false, All, IfOk, OnOk};
ghost use Rattle.std.specs.Option.{option_to_list};
ghost use Rattle.plan_audit.specs.Verdict.{is_stop_rule};
ghost use Rattle.route_sched.specs.Route.{AreDistinctStops};
ghost use Rattle.rule_violations.specs.Violations.{violation_if, violations_of};

use crate::missing::missing_violations;
use crate::positions::PrintedPosition;
use crate::returns::return_violations;
use crate::stops::stop_violations;
use crate::visits::visit_violations;
use plan_audit::Rule;
use plan_types::{OutOfMemory, Problem, Route};
use std::alloc::Global;

/// A place that breaks a rule. Routes and places count from 1. A request that no route serves is reported by
/// its name, with route 0 and place 0.
#[derive(Clone, Copy, Debug, PartialEq, Eq)]
pub struct Violation {
    pub route: u64,
    pub place: u64,
    /// The stop that the rule reports, or 0 at the return.
    pub stop: u32,
    /// The excess over the limit: a load above the capacity, or a time after the latest one. It is 0 for other
    /// rules.
    pub by: u64,
}

/// Returns all violations of a rule on places (1 to 8), in order of route, place and stop. For rule 3, the
/// requests in no route come first, by name. For rules on the whole plan (9 to 11) the list is empty. Loads and
/// times are in the problem's units.
pub fn violations_of(
    alloc: Global,
    problem: &Problem,
    routes: &[Route],
    rule: Rule,
) -> Result<Vec<Violation>, OutOfMemory>
    requires { is_stop_rule rule ≡ false → All (AreDistinctStops problem.now) routes.now }
    ensures { IfOk result (λ found. found.items ≡ violations_of problem.now routes.now rule) }
{
    match rule {
        Rule::UnknownStop => stop_violations(alloc, problem, routes, rule),
        Rule::VisitedTwice => stop_violations(alloc, problem, routes, rule),
        Rule::MissingStop => missing_violations(alloc, problem, routes),
        Rule::SplitPair => stop_violations(alloc, problem, routes, rule),
        Rule::EarlyDelivery => stop_violations(alloc, problem, routes, rule),
        Rule::Load => visit_violations(alloc, problem, routes, rule),
        Rule::Late => visit_violations(alloc, problem, routes, rule),
        Rule::LateReturn => return_violations(alloc, problem, routes),
        Rule::Fleet => Ok(Vec::new(alloc)),
        Rule::Pin => Ok(Vec::new(alloc)),
        Rule::PrintedCost => Ok(Vec::new(alloc)),
    }
}

/// Returns the violation at a place if the condition holds.
pub(crate) fn violation_if(
    holds: bool,
    position: PrintedPosition,
    stop: u32,
    by: u64,
) -> Option<Violation>
    ensures { result ≡ violation_if holds position stop by }
{
    if holds {
        Some(Violation {
            route: position.route,
            place: position.place,
            stop,
            by,
        })
    } else {
        None
    }
}

/// Appends a violation, if there is one.
pub(crate) fn add(found: &mut Vec<Violation>, breach: Option<Violation>) -> Result<(), OutOfMemory>
    ensures { OnOk result (found.new.items ≡ found.old.items ++ option_to_list breach) }
{
    if let Some(breach) = breach {
        found.push(breach)?;
    }
    Ok(())
}
