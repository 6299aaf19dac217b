//! Tables of a route. They show whether a request fits into the route and how much distance it adds, without a
//! new pass along the route.
//!
//! `RouteTable::build` makes the table of a route. `try_insert` prices one pair of places, and `best_places`
//! finds the cheapest of all places. The moves (`move_ops`) keep a table for each vehicle. For a request they
//! compute its `RequestDistances` once and then call `rules_out_with` and `best_places_with` for each route.
//!
//! Modules, in reading order:
//! - `table`: the table, and the passes that fill it.
//! - `progress`, `ride`: the state of a vehicle at a place, its limits, and the step to the next stop.
//! - `slack`: the backward pass, which computes the latest start and the greatest load from each place on.
//! - `insertion`: the distance that one insertion adds (`try_insert`).
//! - `scan`: the best of all insertions (`best_places`). `closed` and `legs` let it skip places, by bounds on
//!   times and prices.
//! - `request`, `span`: the distances of a request that do not depend on the route, and bounds that rule out a
//!   whole scan.
//! - `shared_prefix`, `known_legs`: reuse of the table of a similar route.
//!
//! Source: the forward time slack of routing with time windows (Savelsbergh), here in whole numbers and with
//! rounded distances, which break the triangle inequality.
//!
//! Each place has its start, its load, its distance from the depot, its latest start, and the greatest load
//! from there on. A prefix and a tail of the route fit together if the vehicle reaches the tail by the tail's
//! latest start and the vehicle's load leaves room for the tail's greatest load. The price of an insertion is a
//! difference of distances from the depot. So pricing a single takes one step per place, and pricing a pair
//! takes a pass from its pickup place to its delivery place.
//!
//! A table holds copies of its stops, so it stays valid if other parts of the problem change. In contracts its
//! value is its course: the kind, the capacity, the depot and the stops. Its `start`, `load`, `latest_start`
//! and `distance` hold for every problem and route with this course.
//!
//! Proved: `build`, `rebuild` and `into_rebuilt` return the table of the given route, and `keeps_limits` is true
//! exactly if the route keeps the capacity and the windows. `try_insert` returns exactly the added distance, or
//! `None` exactly if the new route breaks a limit; `best_places` returns the first insertion by distance,
//! pickup place and delivery place among all that keep the limits and add less than a bound, or `None` exactly
//! if there is none. If `rules_out` is true, `best_places` finds nothing below that bound.
#![tactic(auto)]

mod closed;
mod insertion;
mod known_legs;
mod legs;
mod progress;
mod request;
mod ride;
mod scan;
mod shared_prefix;
mod slack;
mod span;
mod table;

pub use request::RequestDistances;
pub use scan::{PricedInsertion, best_places_are_unique};
pub use table::RouteTable;
