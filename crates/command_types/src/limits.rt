//! The limits of commands and states.
ghost use Rattle.std.specs.Prelude.{◌≡◌};
ghost use Rattle.command_types.specs.AddedRequests.{is_coordinate, is_spot, is_demand};

use crate::commands::Spot;
use plan_types::limits::{MAX_COORDINATE, MAX_DEMAND, MAX_SERVICE, MAX_TIME};

/// The greatest number of search steps of one command; the smallest is 1.
pub const MAX_SEARCH_STEPS: u16 = 256;
/// The greatest number of annealing steps of one command; the smallest is 1.
pub const MAX_ANNEAL_STEPS: u32 = 65_536;
/// The greatest number of steps of one `Reduce` command; the smallest is 1.
pub const MAX_REDUCE_STEPS: u32 = 524_288;

/// Returns whether the demand of a pickup or a single is within its limit.
pub fn is_demand(demand: u32) -> bool
    ensures { result ≡ is_demand demand }
{
    demand <= MAX_DEMAND as u32
}

/// Returns whether the coordinates, the time window and the service time are within the limits of a stop.
pub fn is_spot(spot: &Spot) -> bool
    ensures { result ≡ is_spot spot.now }
{
    is_coordinate(spot.x)
        && is_coordinate(spot.y)
        && spot.earliest <= spot.latest
        && spot.latest <= MAX_TIME
        && spot.service <= MAX_SERVICE
}

/// Returns whether an x or a y is within the limits of a stop.
pub fn is_coordinate(x: i32) -> bool
    ensures { result ≡ is_coordinate x }
{
    -MAX_COORDINATE <= x && x <= MAX_COORDINATE
}
