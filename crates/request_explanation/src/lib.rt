//! Explains why a request is where it is in a plan, or why it is in no route.
//!
//! `why` answers the command `why R` (`command_text`). `put_reason` explains one of several unplanned requests
//! in a timetable (`plan_timetable`), and `reason` those that `solve` leaves out (`planner_cli`).
//!
//! If no vehicle can serve the request alone, the answer is the first limit that such a vehicle exceeds; loads
//! come before times. Otherwise the request is tried in each used route, at each place after the pin, even if
//! that exceeds limits.
//!
//! The answer has the best trial for each vehicle. A trial that exceeds no limit is best; then come late ones,
//! compared by their first lateness in the route; then overloaded ones, compared by their first overload. Ties
//! go to the shorter distance, and then to the earlier places.
//!
//! A single is tried at each place with a copy of the route and the whole schedule of the copy. For a pair, only
//! the slow path does so. For each place of the pickup, the rows of the route (time and load at each place) are
//! delayed once. From one place of the delivery to the next, the violations found so far are kept, and later
//! rows are delayed only up to the first violation. If the best trial violates less than what is found so far,
//! the remaining places are skipped, since each trial there violates at least as much.
//!
//! No row is delayed for a trial that cannot win. That is known if its distance is no shorter than the best
//! trial's, and the best trial either exceeds no limit, or is late by only 1 and the latest arrivals show that
//! the new trial is late too.
//!
//! A place of the pickup is skipped, with all places of the delivery after it, in two cases:
//! - The best trial violates less than what is found up to the pickup.
//! - The pickup alone makes the route longer than the best trial's (a detour to the delivery saves at most 1).
//!   Besides, the best trial violates no more than what is found up to the pickup, or it is late by 1 and the
//!   pickup makes the vehicle late in any case.
//!
//! Source: this project's own. The limits are the auditor's rules 6 to 8, with the loads and starts of
//! `route_sched`. The places are those of the insertions of `move_ops`.
//!
//! Modules, in reading order:
//! - `words`: the words between the numbers
//! - `line_prefixes`: the beginning of each line when lines of several requests are printed together
//! - `limit_violations`: the first limit that a route exceeds, and the comparison of two violations
//! - `latest_arrivals`: the latest arrival at each row; a vehicle that arrives later is late there or after it
//! - `insertions`: one more stop in a route whose rows are known
//! - `trials`: a request at each place of a route
//! - `sentences`: the lines
//! - `answers`: the whole answer
//! - `laws`: the meaning of the best trial, and of the answer for a request alone
//!
//! Proved: `why`, `reason` and `put_reason` return exactly the bytes of their definitions, or run out of
//! memory. No trial violates less than the one that is printed, so an overload is printed only if every trial
//! is overloaded by at least as much. For a request alone, the printed limit is the first rule that the auditor
//! finds broken, at the same stop, and none is printed exactly if the auditor finds the route feasible.
#![tactic(auto)]

mod answers;
mod insertions;
mod latest_arrivals;
mod laws;
mod limit_violations;
mod line_prefixes;
mod sentences;
mod trials;
mod words;

pub use answers::{put_reason, reason, why};
pub use laws::{
    alone_is_judged_by_the_rules, alone_matches_the_first_fault, no_trial_is_better,
    overloads_are_a_last_resort,
};
pub use line_prefixes::LinePrefix;
