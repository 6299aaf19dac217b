//! The times, the window and the load at a place of a route.

/// A row of a route's table: a stop or the return to the depot, with its times, window and load. Times are in
/// the problem's unit, loads in the unit of its demands.
#[derive(Clone, Copy, Debug, PartialEq, Eq)]
pub struct Row {
    /// The place, counted from 1. The return has the place after the last stop.
    pub place: u64,
    /// The number of the stop; 0 is the depot.
    pub stop: u32,
    /// The time when the vehicle arrives.
    pub arrival: u64,
    /// The time when service starts.
    pub start: u64,
    /// The time window: service may start from `earliest` to `latest`.
    pub earliest: u32,
    pub latest: u32,
    /// The load after the stop.
    pub load: i64,
}
