//! Reads and writes solutions as `.sol` files of CVRPLIB, for both kinds of problem.
//!
//! The entry points are `read_sol`, which returns the `Solution` that a text spells, and `write_sol`, which
//! returns the text of a plan. `write_routes` writes only the route lines, for a plan that leaves requests out.
//! `read_printed_routes` also returns the routes of a text that only lacks a valid cost. `read_routes` returns the
//! routes whatever the cost line has, and skips the lines before the first route line, which some publishers of
//! solutions use for a head.
//! `cost_tail` and `cost_word` return parts of a cost line, for callers that explain a fault in it.
//!
//! Source: the `.sol` files of CVRPLIB. What counts as a blank line, a number and a fault is this project's own
//! definition.
//!
//! Each line is a route line, a cost line or blank, except in a head. Reading ends at the first cost line or the
//! first fault.
//! `itoa` prints numbers straight into the text, while `format!` would allocate for each of them.
//!
//! Modules, in reading order:
//! - `faults`: the reasons why a text is refused, and why a plan is not written
//! - `lines`: the meaning of one line
//! - `read`: the readers
//! - `write`: the writer
//! - `laws`: the grammar of route lines and cost lines
//!
//! Proved: `read_sol` returns exactly the solution that the text spells, or else the fault of the first faulty
//! line, unless memory runs out. So do `read_routes` and `read_printed_routes` for the routes. `write_sol` writes
//! exactly the bytes of its definition, which read back as the nonempty routes with their distance; it refuses a
//! plan that leaves requests out, with their number. Two laws state the grammar of route lines and of cost lines.
#![tactic(auto)]

mod faults;
mod laws;
mod lines;
mod read;
mod write;

pub use faults::{SolFault, SolFaultKind, WriteSolFault};
pub use laws::{cost_lines_follow_grammar, route_lines_follow_grammar};
pub use lines::{cost_tail, cost_word};
pub use plan_types::Solution;
pub use read::{PrintedRoutes, read_printed_routes, read_routes, read_sol};
pub use write::{write_routes, write_sol};
