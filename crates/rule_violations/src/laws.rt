//! The relation of the lists of violations to the auditor's rules, for every problem and all routes.
ghost use Rattle.rule_violations.specs.Laws.{ListsHoldAllViolations, MissingStopsAreReported, VerdictsReportFirstViolations, PassingRoutesHaveNoViolations};

use plan_types::{
    numbers_are_below_next_number, requests_are_found_by_stop, requests_are_stored_by_name,
};

/// Proves that for each of the rules 1 to 8 the list holds exactly the violations of the auditor's rule, each
/// once, in order of route, place and stop. For the rules on pairs, 4 and 5, this holds if no stop is repeated.
pub fn lists_hold_all_violations()
    ensures { ListsHoldAllViolations }
{}

/// Proves that a verdict `Broken` on printed routes with one of the rules 1 to 8 reports the first violation of
/// the rule's list, and that the lists of the earlier rules are empty.
pub fn verdicts_report_first_violations()
    ensures { VerdictsReportFirstViolations }
{
    lists_hold_all_violations();
}

/// Proves that all lists are empty for routes that pass.
pub fn passing_routes_have_no_violations()
    ensures { PassingRoutesHaveNoViolations }
{
    lists_hold_all_violations();
}

/// Proves that the stops in no route are those that rule 3 reports: at the place of their partner, or by their
/// request.
pub fn missing_stops_are_reported()
    ensures { MissingStopsAreReported }
{
    numbers_are_below_next_number();
    requests_are_found_by_stop();
    requests_are_stored_by_name();
}
