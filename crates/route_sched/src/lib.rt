//! The schedule of a route (when its stops are served, what the vehicle carries, how far it drives) and the
//! cost of a plan.
//!
//! Modules, in reading order:
//! - `places`: the stop at each place of a route. The depot is at place 0 and again after the last stop.
//! - `visits`: an iterator over the places of a route, with start, load and leg at each.
//! - `schedule`: the starts, loads and distance of a route.
//! - `cost`: the cost of a plan.
//! - `limits`: the comparisons of a time or a load with its limit.
//! - `laws`: a route's schedule depends only on the depot and on the route's own stops.
//!
//! Source: the usual schedule of vehicle routing with time windows. A vehicle leaves the depot at the depot's
//! earliest time. A distance of d takes d units of time. A vehicle that arrives early waits. All numbers are
//! whole.
//!
//! By definition, the start at place i is the greatest value, over all places j up to i, of the earliest time at
//! j plus the time from j to i without waiting. The code goes from place to place instead and computes each
//! waiting time with one `max`.
//!
//! A request is counted as planned at its single stop, at its pickup, or at a delivery whose pickup is in no
//! route. `plan_cost` allocates nothing, so it searches for the pickup of each delivery, first in the
//! delivery's own route and then in all routes. That is fast for usual plans, and quadratic for one route of
//! tens of thousands of stops. Callers that already know the number of unplanned requests use `routes_cost`,
//! which is linear.
//!
//! Proved: each public function returns the value of its definition in `specs/`. The size hints of `Visits` are
//! exact. Two problems with the same depot and the same stops for a route's numbers have the same schedule for
//! it.
#![tactic(auto)]

mod cost;
mod laws;
mod limits;
mod places;
mod schedule;
mod visits;

pub use cost::{
    has_stop, is_planned, plan_cost, routes_cost, total_distance, used_count, vehicle_count,
};
pub use laws::schedules_agree;
pub use limits::{exceeds_capacity, is_too_late};
pub use places::next_stop;
pub use schedule::{loads, route_distance, starts};
pub use visits::{Visit, Visits, load_after};
