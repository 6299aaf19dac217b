//! Laws without code: the meaning of the best trial, and of the answer for a request alone.
ghost use Rattle.request_explanation.specs.Laws.{AloneIsJudgedByRules, AloneMatchesFault, NoneIsBetter, OverloadIsLastResort};

use plan_audit::feasible_alone_decides_feasibility;
use plan_types::{requests_are_found_by_stop, requests_are_stored_by_name};

/// States that no trial of a request in a route violates less than the printed one, or as much with a shorter
/// distance.
pub fn no_trial_is_better()
    ensures { NoneIsBetter }
{}

/// States that an overload is printed only if every trial is overloaded, and that it is the smallest one.
pub fn overloads_are_a_last_resort()
    ensures { OverloadIsLastResort }
{}

/// States that the answer for a request alone follows the auditor's rules: a vehicle that serves only the
/// request exceeds no limit exactly if the route of its stops is feasible alone by `route_fault`.
pub fn alone_is_judged_by_the_rules()
    ensures { AloneIsJudgedByRules }
{
    requests_are_found_by_stop();
    requests_are_stored_by_name();
    feasible_alone_decides_feasibility();
}

/// States that the first limit that a vehicle exceeds if it serves only the request is the auditor's first
/// fault of that route, at the same stop: rule 6 for the capacity, 7 for a late start, 8 for a late return.
/// There is none if the route is feasible alone.
pub fn alone_matches_the_first_fault()
    ensures { AloneMatchesFault }
{
    requests_are_found_by_stop();
    requests_are_stored_by_name();
    feasible_alone_decides_feasibility();
}
