//! The stops of a route with a request inserted. A single has one place (j = i), a pair two (i < j). Places in
//! any other order are not an insertion.
ghost use Rattle.std.specs.Prelude.{◌≡◌, ◌≤◌, ◌^◌, true, length, OnOk};
ghost use Rattle.move_ops.specs.Insertion.{inserted, are_places};

use plan_types::{OutOfMemory, Request};
use std::marker::Model;

/// An insertion of a request: the vehicle, and the places of the pickup and the delivery in its new route. A
/// single has its place twice. Vehicles and places count from 1.
#[derive(Clone, Copy)]
pub(crate) struct Insertion {
    pub vehicle: u64,
    pub pickup: u64,
    pub delivery: u64,
}

impl Model for Insertion {
    ghost use Rattle.move_ops.specs.Insertion.{Insertion as Place};

    ghost Value = { Place };

    ghost view = { λ x. (x.vehicle, x.pickup, x.delivery) };

    ghost inverse = { λ x. record { vehicle = x.0; pickup = x.1; delivery = x.2 } };
}

impl Insertion {
    /// Returns the insertion at the vehicle and the places of a tuple.
    pub(crate) fn from_tuple(insertion: (u64, u64, u64)) -> Insertion
        ensures { result ≡ insertion }
    {
        let (vehicle, pickup, delivery) = insertion;
        Insertion {
            vehicle,
            pickup,
            delivery,
        }
    }

    // Returns the vehicle and the places as a tuple.
    fn into_tuple(self) -> (u64, u64, u64)
        ensures { result ≡ self }
    {
        (self.vehicle, self.pickup, self.delivery)
    }
}

/// Returns the vehicle and the places of an insertion, if there is one, as a tuple.
pub(crate) fn tuple_of(insertion: Option<Insertion>) -> Option<(u64, u64, u64)>
    ensures { result ≡ insertion }
{
    match insertion {
        Some(insertion) => Some(insertion.into_tuple()),
        None => None,
    }
}

/// Returns whether the request can have these places in a route of `stops` stops, after its first `kept` stops.
pub(crate) fn are_places(
    request: &Request,
    kept: u64,
    stops: u64,
    pickup: u64,
    delivery: u64,
) -> bool
    requires { stops ≤ 2 ^ 62 }
    ensures { result ≡ are_places request.now kept stops pickup delivery }
{
    match request {
        Request::Single(_) => kept < pickup && pickup <= stops + 1 && pickup == delivery,
        Request::Pair(_, _) => kept < pickup && pickup < delivery && delivery <= stops + 2,
    }
}

/// Fills a list with the stops of the route and the inserted request.
pub(crate) fn insert_into(
    new: &mut Vec<u32>,
    request: &Request,
    pickup: u64,
    delivery: u64,
    route: &[u32],
) -> Result<(), OutOfMemory>
    requires { are_places request.now 0 (length route.now) pickup delivery ≡ true }
    ensures { OnOk result (new.new.items ≡ inserted request.now pickup delivery route.now) }
{
    new.clear();
    new.reserve(route.len() + 2)?;
    new.extend_from_slice(route)?;
    match request {
        Request::Single(stop) => new.insert((pickup - 1) as usize, stop.number)?,
        Request::Pair(first, second) => {
            new.insert((pickup - 1) as usize, first.number)?;
            new.insert((delivery - 1) as usize, second.number)?;
        }
    }
    Ok(())
}
