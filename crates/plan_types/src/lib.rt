//! The data types of pickup and delivery (PDPTW) and of capacitated routing (CVRP): stops, requests, problems,
//! plans, pins and costs.
//!
//! Every crate that handles a problem depends on this one. Start with `Problem`: a depot, a fleet of equal
//! vehicles, and the requests by name, which `put` adds and `take` removes. A plan has one `Route` per vehicle.
//!
//! Modules, in reading order:
//! - `limits`: the limits of each number, as constants.
//! - `requests`: a stop, a request (a single stop, or a pickup with its delivery), and the two kinds of
//!   problem.
//! - `problems`: the problem, and its lookups by stop number.
//! - `plans`: routes, plans, pins and costs.
//! - `solutions`: solutions as their authors print them.
//! - `laws`: facts about every problem, every lookup and every cost, without code.
//!
//! Source: the usual terms of the field, for PDPTW as in Li and Lim's instances, for CVRP as in CVRPLIB. The
//! limits are this project's own.
//!
//! A problem keeps its requests in ascending order of name, and next to them a table of the stops by number. An
//! entry of the table has the stop, the name of its request and its partner, so that `stop`, `name_of`,
//! `partner_of` and `pickup_of` each read one entry.
//!
//! The type's invariant ties the table to the requests. Code that writes a value outside its limits to a public
//! field of a problem therefore does not verify.
//!
//! Contracts see a `Route` as a list of numbers and `Routes` as a list of such lists. They are not plain
//! `Vec`s, because an equation between two `Vec`s also compares their capacities.
//!
//! Proved: a `Problem` always keeps its limits, distinct stop numbers, ascending names, and a `next_number`
//! above all stop numbers. `put` adds exactly the given request, or reports the first reason not to and changes
//! nothing; `take` removes exactly the named request, without allocating; lookups, copies and changes of routes
//! return what their definitions say. Costs are compared by unplanned requests, then vehicles, then distance,
//! which is a total order.
#![tactic(auto)]

mod laws;
pub mod limits;
mod plans;
mod problems;
mod requests;
mod solutions;

pub use laws::{
    costs_are_totally_ordered, costs_compare_lexicographically, numbers_are_below_next_number,
    put_adds_one_request, requests_are_found_by_stop, requests_are_stored_by_name,
    take_removes_one_request,
};
pub use plans::{Cost, Pins, Plan, Route, Routes};
pub use problems::{Problem, PutFault};
pub use requests::{Kind, Request, Stop};
pub use solutions::Solution;
use std::alloc::AllocError;

/// The error of an operation that could not allocate memory.
///
/// It is std's `AllocError`, so that `?` converts to it. Error types that include this case have a variant of
/// this name.
pub type OutOfMemory = AllocError;
