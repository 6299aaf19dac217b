//! Lists of all violations of the auditor's rules. The auditor itself reports only the first violation.
//!
//! `violations_of` lists the places that break a rule, and by how much. `missing_stops` lists the stops that
//! are in no route. `first_position` finds the first position of a stop. `is_late` and `is_overload` are the
//! comparisons of rules 6 to 8, and `visit_after` returns the visit after a place. `schedule_is_known` returns
//! whether the schedule of the routes is known when a given rule is the first broken one.
//!
//! Modules, in reading order:
//! - `violations`: a violation, and the violations of a rule.
//! - `positions`: the first position of a stop.
//! - `stops`, `missing`: rules 1 to 5, on positions of stops.
//! - `limits`, `visits`, `returns`: rules 6 to 8, on loads and times.
//! - `known_schedule`: the rules under which the schedule is known.
//! - `laws`: the relation of the lists to the auditor's rules.
//!
//! Source: the rules of `plan_audit`. Its definitions say when a place breaks a rule; those in
//! `specs/Violations.antt` compute all such places.
//!
//! Each rule takes a pass over the routes. Rules 1 to 5 search the routes for the first position of a stop, so
//! they compare each pair of places. Rules 6 to 8 take one pass along each route and require that no stop is
//! unknown or repeated. Rules 9 to 11, on the fleet, pins and printed cost, concern the plan as a whole, and
//! their lists are empty.
//!
//! Proved: for each of the rules 1 to 8 the list holds exactly the violations, each once, in order of route,
//! place and stop, with the excess (for rules 4 and 5, if no stop is repeated).
//!
//! A verdict `Broken` on a printed solution reports the first item of its rule's list, and the lists of earlier
//! rules are empty; if the verdict is to pass, all lists are empty. The stops in no route are those that rule 3
//! reports, at the place of their partner or by their request.
#![tactic(auto)]

mod known_schedule;
mod laws;
mod limits;
mod missing;
mod positions;
mod returns;
mod stops;
mod violations;
mod visits;

pub use known_schedule::schedule_is_known;
pub use laws::{
    lists_hold_all_violations, missing_stops_are_reported, passing_routes_have_no_violations,
    verdicts_report_first_violations,
};
pub use limits::{is_late, is_overload};
pub use missing::missing_stops;
pub use positions::{PrintedPosition, first_position};
pub use returns::visit_after;
pub use violations::{Violation, violations_of};
