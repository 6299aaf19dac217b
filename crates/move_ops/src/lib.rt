//! Moves from plan to plan: inserting, removing and exchanging requests, 2-opt*, and the best insertion of a
//! request. A move returns a plan that passes the auditor with its pins, or `None`.
//!
//! For many moves use `Draft`, as the search (`seeded_search`) does. It changes a plan in place and keeps a
//! table of each route. The functions `insert_at`, `remove`, `exchange`, `two_opt_star` and `best_insertion`
//! are single moves: each builds a draft of a plan and applies one move to it. `Tables` finds best insertions
//! for a caller that keeps the plan itself; the program does not use it.
//!
//! Modules, in reading order:
//! - `plan_moves`: the moves from plan to plan.
//! - `draft`: the draft. Its moves are in `draft/`: `removing`, `rearranging` (exchange and 2-opt*) and
//!   `placing`. `installing` sets new routes; `costing` computes the cost of an exchange or 2-opt* before
//!   the move is made.
//! - `lists`, `insert`, `removal`, `swap`: routes and pins by vehicle, and the stops of new routes.
//! - `pairing`, `tour`, `tours`, `changes`: a route with its table, and the checks of a new route.
//! - `savings`: the greatest saving that an inserted request can bring.
//! - `vehicle_hints`, `naming`: the vehicle to look at first for a stop, marks at the stops of routes, and the
//!   request of a name.
//! - `max_demands`: the greatest demand that a single may have in each vehicle.
//! - `facts`: the invariant of a problem, for functions that only pass the problem on.
//! - `tables`: the best insertion.
//! - `laws`: laws of best insertions, without code.
//!
//! Source: the moves of local search and of ruin and recreate in the literature on vehicle routing. The best
//! insertion has the lowest cost, then the lowest vehicle, pickup place and delivery place. Vehicles and places
//! count from 1.
//!
//! A move checks only the routes that it changes. That the rest of the plan still passes is proved, from the
//! auditor's law that a plan is judged route by route.
//!
//! Proved: each move returns exactly the plan of its definition if that plan passes, and `None` if not;
//! `OutOfMemory` is its only error. `best_insertion` and `Tables::best` return the first insertion by cost,
//! vehicle and places, and `None` exactly when there is none. A `Draft` makes the same plans and knows what
//! they cost.
#![tactic(auto)]

mod changes;
mod draft;
mod facts;
mod insert;
mod laws;
mod lists;
mod max_demands;
mod naming;
mod pairing;
mod plan_moves;
mod removal;
mod savings;
mod swap;
mod tables;
mod tour;
mod tours;
mod vehicle_hints;

pub use draft::Draft;
pub use laws::{
    best_insertions_are_least, best_insertions_are_unique, insertions_are_feasible,
    limits_are_rules, placements_save_little, plans_pass_without_pins, relocations_never_cost_more,
    requests_keep_their_places,
};
pub use lists::route_of;
pub use naming::request_named;
pub use plan_moves::{best_insertion, exchange, insert_at, remove, two_opt_star};
pub use savings::max_saving;
pub use tables::Tables;
pub use vehicle_hints::marks;
