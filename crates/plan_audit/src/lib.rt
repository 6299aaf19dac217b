//! The auditor: it checks whether a plan or a printed solution keeps all eleven rules, and if not, reports the
//! first violation.
//!
//! `audit` checks a plan with its pins; moves, commands and the store promise plans that pass it.
//! `audit_solution` checks a printed solution, for the `audit` subcommand. `audit_routes` checks the routes of
//! a printed solution without the printed cost. `route_fault` and `is_feasible` check one route by itself.
//!
//! Modules, in reading order:
//! - `rules`: the eleven rules with their numbers and names, and the verdict.
//! - `audits`: the audit, one rule after another until one is broken.
//! - `faults`: the search for the first place that fails a test.
//! - `first_positions`: the first position of each stop in a plan.
//! - `scan`, with `pairs`: rules 1 to 5, on the positions of stops.
//! - `timing`: rules 6 to 8, on loads and times, and the cost of routes that keep them.
//! - `fleet`, `pins`: rule 9 for a printed solution, and rule 10.
//! - `alone`: one list of stops, checked as the only route.
//! - `laws`: the meaning of a verdict, as laws without code.
//!
//! Source: feasibility of PDPTW by Li and Lim, and of CVRP by CVRPLIB. The pins and the order of the rules are
//! this project's own.
//!
//! One pass records the first position of each stop number. A rule on positions is then a pass over the plan
//! with one lookup for each partner. Loads, times and the distance take one pass over each route if rules 6 to
//! 8 hold, since each distance takes a square root; otherwise each of these rules takes a pass of its own. So
//! an audit takes linear time. A rule is checked only if all earlier rules hold.
//!
//! `route_fault` and `is_feasible` allocate nothing and search the list for each partner, which takes quadratic
//! time.
//!
//! A plan may leave requests out, and has no printed cost to check (rule 11). A printed solution has no pins to
//! check (rule 10). In a problem of kind `Vrp`, times are not checked (rules 7 and 8).
//!
//! Proved: `audit` and `audit_solution` return the verdict (pass with the cost, or the first violation by rule,
//! route, place and stop), or report that they are out of memory.
//!
//! Each plan and each solution has exactly one verdict: a plan passes exactly if it is sound and keeps the
//! fleet and its pins, a solution exactly if it is sound, serves every request and keeps the fleet and its
//! printed cost. Verdicts are local: a plan passes exactly if its stops are distinct stops of current requests,
//! each vehicle has a route, and each route is feasible alone and begins with its pin.
#![tactic(auto)]

mod alone;
mod audits;
mod faults;
mod first_positions;
mod fleet;
mod laws;
mod pairs;
mod pins;
mod rules;
mod scan;
mod timing;

pub use alone::{is_feasible, route_fault};
pub use audits::{audit, audit_routes, audit_solution};
pub use laws::{
    a_passing_plan_is_sound, an_unsound_plan_does_not_pass, each_plan_has_a_verdict,
    empty_routes_change_no_verdict, feasibility_is_local, feasible_alone_decides_feasibility,
    passes_decides_the_verdict, passing_is_local, pins_are_distinct_stops,
    plans_are_disjoint_routes, plans_pass_iff_sound, routes_are_judged_by_true_cost,
    routes_may_be_replaced, routes_that_pass_are_a_plan, routes_that_pass_are_feasible_alone,
    solutions_pass_iff_sound, verdicts_are_unique,
};
pub use rules::{Rule, Verdict};
