//! The state of a vehicle on its route, and the limits at each place.

ghost use Rattle.std.specs.Prelude.{◌≡◌, ◌≤◌, ◌+◌, ◌^◌, pos, ◌+ℤ◌, ◌-ℤ◌, unsigned_abs};
ghost use Rattle.slack_tables.specs.Ride.{is_in_time};

use plan_types::{Kind, Stop};

/// The limits of a vehicle at each place: its capacity, and the windows for a problem of kind `LiLim`.
#[derive(Clone, Copy, Debug)]
pub(crate) struct Limits {
    pub kind: Kind,
    pub capacity: u32,
}

/// The state of a vehicle at a place of its route.
#[derive(Clone, Copy, Debug)]
pub(crate) struct Progress {
    /// The stop at the place, or the depot.
    pub stop: Stop,
    /// The start of service at the place.
    pub start: u64,
    /// The load after the service.
    pub load: i64,
    /// The distance from the depot.
    pub distance: u64,
}

/// A place of a route, with what is known about all later places.
#[derive(Clone, Copy, Debug)]
pub(crate) struct PlaceSlack {
    pub at: Progress,
    /// The latest start of service here from which neither a later window nor the return is missed, or the
    /// greatest number if any start will do.
    pub latest_start: u64,
    /// The greatest load from here on.
    pub max_load: i64,
}

/// Returns whether a start of service is not after the latest one. Always true for a problem of kind `Vrp`.
pub(crate) fn is_in_time(kind: Kind, start: u64, latest: u64) -> bool
    ensures { result ≡ is_in_time kind start latest }
{
    match kind {
        Kind::LiLim => start <= latest,
        Kind::Vrp => true,
    }
}

/// Returns what the load `load` at a place becomes if the load at an earlier place changes from `before` to
/// `after`.
pub(crate) fn moved_load(load: i64, before: i64, after: i64) -> i64
    requires load { unsigned_abs load ≤ 2 ^ 60 }
    requires before { unsigned_abs before ≤ 2 ^ 60 }
    requires after { unsigned_abs after ≤ 2 ^ 60 }
    ensures { result ≡ after -ℤ before +ℤ load }
{
    after - before + load
}

/// Returns `to - from`, which may be negative.
pub(crate) fn difference(to: u64, from: u64) -> i64
    requires to { to ≤ 2 ^ 60 }
    requires from { from ≤ 2 ^ 60 }
    ensures { result ≡ pos to -ℤ pos from }
{
    to as i64 - from as i64
}
