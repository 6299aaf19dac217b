//! The limits of the numbers of a problem, and of search steps. All are inclusive.

/// The greatest stop number. Number 0 is the depot.
pub const MAX_STOP_NUMBER: u32 = 40_000;
/// The greatest number of vehicles.
pub const MAX_FLEET: u32 = 40_000;
/// The greatest coordinate. The smallest is its negative.
pub const MAX_COORDINATE: i32 = 1_000_000;
/// The greatest capacity of a vehicle.
pub const MAX_CAPACITY: u32 = 1_000_000;
/// The greatest demand of a single stop or a pickup. The smallest is 0.
pub const MAX_DEMAND: i32 = 1_000_000;
/// The latest time at which a time window may end.
pub const MAX_TIME: u32 = 100_000_000;
/// The longest service time.
pub const MAX_SERVICE: u32 = 1_000_000;
/// The greatest deviation, in units of distance. The deviation says by how much a search step may make a plan
/// longer than another plan.
pub const MAX_DEVIATION: u32 = 1_000_000_000;
/// The most search steps that one command or operand may request.
pub const MAX_REQUESTED_STEPS: u64 = 1_000_000_000;
/// The greatest number of search steps that a state may have made.
pub const MAX_STEPS: u64 = 1 << 60;
