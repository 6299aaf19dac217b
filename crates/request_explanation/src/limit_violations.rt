//! The first limit that a route exceeds.
ghost use Rattle.std.specs.Prelude.{◌≡◌, ◌==◌, ◌&&◌, not, IfOk};
ghost use Rattle.plan_types.specs.declared.requests.Kind.TheVariants.{LiLim};
ghost use Rattle.route_sched.specs.Route.{AreDistinctStops};
ghost use Rattle.request_explanation.specs.LimitViolations.{excess, excess_of, is_heavy, is_late, is_load, is_overload, lateness_at, lateness_in, violation_in, violation_of, violates_less, overload_at, overload_in, time_limit};

use plan_explain::{Row, rows_of};
use plan_types::{Kind, OutOfMemory, Problem};
use route_sched::{exceeds_capacity, is_too_late};
use std::alloc::Global;

/// A limit that a route may exceed.
#[derive(Clone, Copy)]
pub(crate) enum Limit {
    /// The capacity of the vehicle.
    Capacity,
    /// The latest start of service at a stop.
    Start,
    /// The latest return to the depot.
    Return,
}

/// A limit that is exceeded.
#[derive(Clone, Copy)]
pub(crate) struct LimitViolation {
    pub limit: Limit,
    /// The stop; 0 is the depot.
    pub stop: u32,
    /// The load or the time that exceeds the limit.
    pub actual: u64,
    /// The greatest value allowed.
    pub allowed: u64,
}

impl LimitViolation {
    /// Returns by how much the limit is exceeded.
    pub(crate) fn excess(&self) -> u64
        ensures { result ≡ excess self.now }
    {
        self.actual.saturating_sub(self.allowed)
    }
}

/// Returns by how much the first limit is exceeded, or 0 if none is.
pub(crate) fn excess_of(violation: &Option<LimitViolation>) -> u64
    ensures { result ≡ excess_of violation.now }
{
    match violation {
        Some(violation) => violation.excess(),
        None => 0,
    }
}

/// Returns whether the exceeded limit is the capacity.
pub(crate) fn is_overload(violation: &Option<LimitViolation>) -> bool
    ensures { result ≡ is_overload violation.now }
{
    match violation {
        Some(violation) => is_load(violation.limit),
        None => false,
    }
}

fn is_load(limit: Limit) -> bool
    ensures { result ≡ is_load limit }
{
    match limit {
        Limit::Capacity => true,
        Limit::Start => false,
        Limit::Return => false,
    }
}

/// Returns whether a time limit is exceeded by 1, the least possible violation.
pub(crate) fn is_late_by_one(violation: &Option<LimitViolation>) -> bool
    ensures { result ≡ (not (is_overload violation.now) && (excess_of violation.now == 1)) }
{
    !is_overload(violation) && excess_of(violation) == 1
}

/// Returns whether one violation is less than another. An overload is greater than everything that is not an
/// overload; within a kind the smaller excess is less.
pub(crate) fn violates_less(
    violation: &Option<LimitViolation>,
    other: &Option<LimitViolation>,
) -> bool
    ensures { result ≡ violates_less violation.now other.now }
{
    let is_closer = excess_of(violation) < excess_of(other);
    if is_overload(violation) {
        is_overload(other) && is_closer
    } else {
        is_overload(other) || is_closer
    }
}

/// Returns the first limit that a route exceeds; loads come before times.
pub(crate) fn violation_of(
    alloc: Global,
    problem: &Problem,
    route: &[u32],
) -> Result<Option<LimitViolation>, OutOfMemory>
    requires { AreDistinctStops problem.now route.now }
    ensures { IfOk result (λ violation. violation ≡ violation_of problem.now route.now) }
{
    let rows = rows_of(alloc, problem, route)?;
    Ok(violation_in(problem, rows.as_slice()))
}

fn violation_in(problem: &Problem, rows: &[Row]) -> Option<LimitViolation>
    ensures { result ≡ violation_in problem.now rows.now }
{
    match overload_in(problem.capacity, rows) {
        Some(violation) => Some(violation),
        None => lateness_in(problem.kind, rows),
    }
}

/// Returns the first overload.
pub(crate) fn overload_in(capacity: u32, rows: &[Row]) -> Option<LimitViolation>
    ensures { result ≡ overload_in capacity rows.now }
{
    for row in rows {
        if is_heavy(capacity, row) {
            return Some(overload_at(capacity, row));
        }
    }
    None
}

/// Returns whether the load exceeds the capacity after a stop.
pub(crate) fn is_heavy(capacity: u32, row: &Row) -> bool
    ensures { result ≡ is_heavy capacity row.now }
{
    row.stop != 0 && exceeds_capacity(row.load, capacity)
}

/// Returns the overload at this row, with its values.
pub(crate) fn overload_at(capacity: u32, row: &Row) -> LimitViolation
    ensures { result ≡ overload_at capacity row.now }
{
    LimitViolation {
        limit: Limit::Capacity,
        stop: row.stop,
        actual: row.load.unsigned_abs(),
        allowed: u64::from(capacity),
    }
}

/// Returns the first lateness. A problem of kind `Vrp` has no times.
pub(crate) fn lateness_in(kind: Kind, rows: &[Row]) -> Option<LimitViolation>
    ensures { result ≡ lateness_in kind rows.now }
{
    match kind {
        Kind::LiLim => first_lateness(rows),
        Kind::Vrp => None,
    }
}

fn first_lateness(rows: &[Row]) -> Option<LimitViolation>
    ensures { result ≡ lateness_in LiLim rows.now }
{
    for row in rows {
        if is_late(row) {
            return Some(lateness_at(row));
        }
    }
    None
}

/// Returns whether service starts, or the vehicle returns, too late.
pub(crate) fn is_late(row: &Row) -> bool
    ensures { result ≡ is_late row.now }
{
    is_too_late(row.start, row.latest)
}

/// Returns the lateness at this row, with its values.
pub(crate) fn lateness_at(row: &Row) -> LimitViolation
    ensures { result ≡ lateness_at row.now }
{
    LimitViolation {
        limit: time_limit(row.stop),
        stop: row.stop,
        actual: row.start,
        allowed: u64::from(row.latest),
    }
}

// Returns the limit that a late start at this stop exceeds; stop 0 is the depot.
fn time_limit(stop: u32) -> Limit
    ensures { result ≡ time_limit stop }
{
    if stop == 0 {
        Limit::Return
    } else {
        Limit::Start
    }
}
