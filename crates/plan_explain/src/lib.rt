//! Explanations of verdicts and of refused files, for a person who has to correct a solution or an instance.
//!
//! `auditor_cli` prints them for the `explain` subcommand, after the line of the audit. `explain_verdict`
//! explains a verdict. `explain_instance_fault` and `explain_solution_fault` explain why a file is refused.
//! `explain_distance` returns a line with the distance of the routes, for a solution that is refused because of
//! its cost. `rows_of`, `stop_visits_of`, `waiting_time`, `departure` and `summary_of` return the values of a
//! route. `plan_timetable` prints these values too.
//!
//! If a rule is broken, the text has a sentence with the values at the first violation, and the route as a
//! table. Then it says how often and where else the rule is broken, and how often each later rule is broken. If
//! a stop is unknown or appears twice, the schedule is not known, so the table has only places and stops.
//!
//! If the cost is wrong, or the solution passes, the text has a line for each route and the sums. A departure is
//! the latest one that delays no service. Arrivals and waiting times are those of a vehicle that leaves each
//! place immediately after its service.
//!
//! In the templates of `put_template`, `@` stands for a value.
//!
//! Source: this project's own. Starts, loads, distances and costs are those of `route_sched`; `instance_read`
//! finds the details of an instance's fault.
//!
//! Modules, in reading order:
//! - `templates`: templates, and the names of fields and keys
//! - `rows`, `stop_visits`: arrival, start, load, leg and service at each place of a route
//! - `tables`, `summaries`: a route as a table; a line for each route, and the sums
//! - `sentences`: the sentence on a broken rule, and the hint that all stop numbers are one too high or too low
//! - `other_violations`: how many places break the rule, a list of them, and how often each later rule is broken
//! - `verdicts`: the text for a verdict, and the distance of the routes of a refused file
//! - `quotes`: quoted lines, words and bytes of a refused file
//! - `evidence`, `sol_faults`: the details of an instance's fault and of a solution's fault
//! - `refusals`: the whole text for a refused file
//! - `ignored_lines`: limits of an instance that are ignored, and text after the cost line of a solution
//!
//! Proved: the definitions in `specs/` say each byte of the text, for every verdict on a printed solution and
//! every fault of a file, if memory suffices. The reader of solutions ignores the line that `line_after_cost`
//! finds. The rows, visits and summaries of a route are those of its schedule.
#![tactic(auto)]

mod evidence;
mod ignored_lines;
mod other_violations;
mod quotes;
mod refusals;
mod rows;
mod sentences;
mod sol_faults;
mod stop_visits;
mod summaries;
mod tables;
mod templates;
mod verdicts;

pub use ignored_lines::{ignored_limit_line, line_after_cost, reading_ends_at_the_cost_line};
pub use refusals::{explain_instance_fault, explain_solution_fault};
pub use rows::Row;
pub use stop_visits::{StopVisit, departure, rows_of, stop_visits_of};
pub use summaries::{Summary, summary_of, waiting_time};
pub use verdicts::{explain_distance, explain_verdict, verdict_schedule_is_known};
