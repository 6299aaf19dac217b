//! Attempts to reduce the fleet: the requests of a plan are annealed with only some of its vehicles, and the
//! result is put back as a plan of all vehicles. If a plan leaves requests unplanned, an attempt uses all
//! vehicles to serve them.
//!
//! The entry function is `reduce_fleet`.
//!
//! Modules, in reading order:
//! - `fleets`: a problem, routes and pins restricted to some of the vehicles, and routes of all vehicles again.
//! - `subfleets`: the vehicles of an attempt.
//! - `attempts`: attempts, one after another.
//! - `laws`: laws about plans of some of the vehicles, and about attempts, without code.
//!
//! Source: this project's own method, with absence counters (Christiaens and Vanden Berghe, 2020). A common way
//! to find a smaller fleet is to leave the requests of some routes out and to insert them again (Bent and Van
//! Hentenryck 2006; Nagata and Bräysy 2009).
//!
//! Proved: `reduce_fleet` returns the plan that the attempts of the definition find, and the number of the step
//! after their last. From a plan that passes, the attempts lead to a plan that passes and costs no more, within
//! their steps (`attempts_keep_plans`, `attempts_never_cost_more`). If a plan passes, the routes of some of its
//! vehicles pass in a fleet of only these; and a plan of these vehicles, put back at their numbers, passes with
//! the pins (`picked_pass`).
#![tactic(auto)]

mod attempts;
mod fleets;
mod laws;
mod subfleets;

pub use attempts::reduce_fleet;
pub use laws::{attempts_keep_plans, attempts_never_cost_more, kept_are_subfleets, picked_pass};
