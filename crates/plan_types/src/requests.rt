//! Stops and requests, and the limits of their fields.
ghost use Rattle.std.specs.Prelude.{◌≡◌, ◌↔◌, IsTrue};
ghost use Rattle.plan_types.specs.Limits.{IsCoordinate, IsVisit, IsStop, IsDepot, IsDemand};
ghost use Rattle.plan_types.specs.Request.{request_name, number_after, IsRequest};

use crate::limits::{MAX_COORDINATE, MAX_DEMAND, MAX_SERVICE, MAX_STOP_NUMBER, MAX_TIME};

/// A visit of a vehicle: where it is, what is loaded there, and when the service may begin.
#[derive(Clone, Copy, Debug, PartialEq, Eq)]
pub struct Stop {
    /// The number, 1..=40,000, or 0 for the depot.
    pub number: u32,
    /// The coordinates, in -1,000,000..=1,000,000.
    pub x: i32,
    pub y: i32,
    /// The change of the load at this stop, in -1,000,000..=1,000,000. It is negative at a delivery.
    pub demand: i32,
    /// The time window in which the service begins, in 0..=100,000,000. Travelling one unit of distance takes
    /// one unit of time.
    pub earliest: u32,
    pub latest: u32,
    /// The duration of the service, 0..=1,000,000, in the same unit.
    pub service: u32,
}

fn is_coordinate(x: i32) -> bool
    ensures { IsTrue result ↔ IsCoordinate x }
{
    -MAX_COORDINATE <= x && x <= MAX_COORDINATE
}

fn is_demand(goods: i32) -> bool
    ensures { IsTrue result ↔ IsDemand goods }
{
    0 <= goods && goods <= MAX_DEMAND
}

impl Stop {
    // Returns whether the place, the time window and the service keep their limits.
    fn is_visit(&self) -> bool
        ensures { IsTrue result ↔ IsVisit self.now }
    {
        is_coordinate(self.x)
            && is_coordinate(self.y)
            && self.earliest <= self.latest
            && self.latest <= MAX_TIME
            && self.service <= MAX_SERVICE
    }

    // Returns whether this can be a customer's stop.
    fn is_stop(&self) -> bool
        ensures { IsTrue result ↔ IsStop self.now }
    {
        1 <= self.number && self.number <= MAX_STOP_NUMBER && self.is_visit()
    }

    /// Returns whether this can be the depot.
    pub(crate) fn is_depot(&self) -> bool
        ensures { IsTrue result ↔ IsDepot self.now }
    {
        self.number == 0 && self.demand == 0 && self.service == 0 && self.is_visit()
    }
}

/// A customer's order.
#[derive(Clone, Copy, Debug, PartialEq, Eq)]
pub enum Request {
    /// One stop with a demand of 0 or more, which stays on board until the end of the route.
    Single(Stop),
    /// A pickup, then the delivery of the same goods by the same vehicle.
    Pair(Stop, Stop),
}

impl Request {
    /// Returns the number of the single stop or of the pickup, which is the request's name.
    pub fn name(&self) -> u32
        ensures { result ≡ request_name self.now }
    {
        match self {
            Request::Single(stop) => stop.number,
            Request::Pair(pickup, _) => pickup.number,
        }
    }

    /// Returns whether this can be a request of a problem.
    pub(crate) fn is_request(&self) -> bool
        ensures { IsTrue result ↔ IsRequest self.now }
    {
        match self {
            Request::Single(stop) => stop.is_stop() && is_demand(stop.demand),
            Request::Pair(pickup, delivery) => {
                pickup.is_stop()
                    && delivery.is_stop()
                    && pickup.number != delivery.number
                    && is_demand(pickup.demand)
                    && delivery.demand == -pickup.demand
            }
        }
    }

    /// Returns the number after the greatest number of the request.
    pub(crate) fn number_after(&self) -> u32
        requires { IsRequest self.now }
        ensures { result ≡ number_after self.now }
    {
        match self {
            Request::Single(stop) => stop.number + 1,
            Request::Pair(pickup, delivery) => pickup.number.max(delivery.number) + 1,
        }
    }
}

/// The set of rules that a problem follows.
#[derive(Clone, Copy, Debug, PartialEq, Eq)]
pub enum Kind {
    /// Pickup and delivery with time windows (Li and Lim).
    LiLim,
    /// Capacitated vehicle routing (CVRPLIB). Time windows are stored but not checked.
    Vrp,
}
