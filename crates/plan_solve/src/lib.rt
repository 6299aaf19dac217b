//! Solving an instance in one uninterrupted run, without a store: the `solve` subcommand.
//!
//! `solve` turns the text of an instance into the text of a plan, a `.sol` file of CVRPLIB. It loads the
//! problem with the seed and inserts each unplanned request at its best place, like the `run` commands `load`
//! and `build`. With a deviation it then makes the given number of steps by the search, like the command
//! `search`. Without a deviation a problem of kind `Vrp` with at most 300 requests is given to the hybrid genetic
//! search (`hybrid_search`); for any other problem `solve` executes the operations of the command
//! `anneal 0 STEPS`, one by one (`command_text`). It prints progress lines. If one of them can't be written, the
//! run continues, but prints no more.
//!
//! Source: this project's own.
//!
//! Modules, in reading order:
//! - `faults`: the reasons why there is no plan
//! - `execute`: executes operations with a planner
//! - `marks`: the steps at which a search prints a progress line
//! - `progress_lines`: a progress line, and the result of the steps
//! - `search`: the search, with progress lines
//! - `annealing`: annealing by stages, with progress lines
//! - `hybrid`: the hybrid genetic search, with progress lines
//! - `printing`: the text of a plan, and the requests that it leaves out
//! - `solver`: `solve`
//! - `laws`: the properties of the result, for every instance
//!
//! Proved: `solve` returns the plan that loading, building and the given number of steps make, or the first
//! fault of the text, or `OutOfMemory`. The names of the unplanned requests are complete, and the progress
//! lines were written unless it reports that one could not be. With a deviation the plan is the one that the
//! operations of a store make, however the steps are split into searches. The plan of the hybrid genetic search is
//! the built one, or it passes the auditor and costs at most as much as the built one. By annealing it is the plan
//! that the command `anneal 0 STEPS` leaves. If no request is left out, the solution passes the audit: it serves
//! each request, uses no more vehicles than there are, and prints its distance.
#![tactic(auto)]

mod annealing;
mod execute;
mod faults;
mod hybrid;
mod laws;
mod marks;
mod printing;
mod progress_lines;
mod search;
mod solver;

pub use faults::SolveFault;
pub use laws::{annealing_equals_commands, solutions_pass_the_audit, solving_equals_commands};
pub use solver::{SolvedPlan, solve};
