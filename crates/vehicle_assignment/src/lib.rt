//! The assignment of vehicles to the routes of a printed solution, which makes it a plan.
//!
//! The entry function is `assign_vehicles`. It reads the text of a solution and returns a plan for a problem with
//! pins.
//!
//! Modules, in reading order:
//! - `faults`: the reasons why a solution is not a plan.
//! - `assignment`: the routes of vehicles with pins.
//! - `fill`: the routes of the other vehicles.
//! - `assign`: `assign_vehicles`.
//! - `laws`: each text has one assignment, and a solution that passes still passes as a plan.
//!
//! Source: this project's own.
//!
//! The routes of a printed solution have no vehicles and may be in any order. Each vehicle with a pin, in
//! ascending order of number, takes the first remaining route that begins with its pin. The other vehicles then
//! take the remaining routes in order. A taken route is replaced by an empty one, so no route moves.
//!
//! Proved: `assign_vehicles` returns this plan if the auditor passes the solution and each pin finds a route;
//! otherwise it returns the first fault of the text, the first violation, or the first vehicle whose pin finds
//! no route; or it reports that it is out of memory. For each problem, pins and text there is exactly one such
//! answer. If the pins do not outnumber the vehicles, the plan has exactly the routes of the solution and
//! passes the audit with the pins at the same cost.
#![tactic(auto)]

mod assign;
mod assignment;
mod faults;
mod fill;
mod laws;

pub use assign::assign_vehicles;
pub use faults::AssignmentFault;
pub use laws::{assigned_plans_pass, assignment_is_unique, assignment_keeps_routes};
