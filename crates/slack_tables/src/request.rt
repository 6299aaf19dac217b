//! The distances of a request that are the same for every route: between the depot and its stops, and between
//! its two stops.
//!
//! A caller that tries many routes for one request computes them once. `rules_out_with` uses the lower bounds,
//! and `best_places_with` uses the exact distance from pickup to delivery.

ghost use Rattle.std.specs.Prelude.{◌≡◌};
ghost use Rattle.plan_types.specs.Request.{IsRequest};
ghost use Rattle.slack_tables.specs.RequestFloors.{AreFloors, AreDistances};

use crate::span::distance_lower_bound;
use nint_dist::dist;
use plan_types::{Request, Stop};

/// The distances of a request that do not depend on the route.
#[derive(Clone, Copy, Debug, PartialEq, Eq)]
pub struct RequestDistances {
    // A lower bound on the distance between the depot and the single or the pickup.
    pub(crate) to_depot: u64,
    // A lower bound on the distance between the depot and the delivery, or 0 for a single.
    pub(crate) delivery_to_depot: u64,
    // The distance between pickup and delivery or a lower bound on it, or 0 for a single.
    pub(crate) between_stops: u64,
}

impl RequestDistances {
    /// Returns the distances of a request in a problem with this depot.
    pub fn of(depot: &Stop, request: &Request) -> RequestDistances
        requires { IsRequest request.now }
        ensures { AreDistances depot.now request.now result }
    {
        let floors = RequestDistances::floors(depot, request);
        match request {
            Request::Single(_) => floors,
            Request::Pair(pickup, delivery) => RequestDistances {
                between_stops: u64::from(dist(pickup, delivery)),
                ..floors
            },
        }
    }

    /// Returns lower bounds on the distances, without a square root.
    pub(crate) fn floors(depot: &Stop, request: &Request) -> RequestDistances
        ensures { AreFloors depot.now request.now result }
    {
        match request {
            Request::Single(stop) => RequestDistances {
                to_depot: distance_lower_bound(depot, stop),
                delivery_to_depot: 0,
                between_stops: 0,
            },
            Request::Pair(pickup, delivery) => RequestDistances {
                to_depot: distance_lower_bound(depot, pickup),
                delivery_to_depot: distance_lower_bound(depot, delivery),
                between_stops: distance_lower_bound(pickup, delivery),
            },
        }
    }
}
