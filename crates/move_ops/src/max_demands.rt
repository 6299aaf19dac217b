//! The greatest demand that a single may have in each vehicle. The numbers are side by side, so that a best
//! insertion skips full vehicles without reading their tables.
ghost use Rattle.std.specs.Prelude.{◌≡◌, ◌≤◌, ◌<ℤ◌, ℕ, ℤ, List, IfOk, IsTrue, Some, slice_get};
ghost use Rattle.slack_tables.specs.Course.{Course};
ghost use Rattle.slack_tables.specs.FitsNowhere.{FitsNowhere};
ghost use Rattle.move_ops.specs.MaxDemands.{AreMaxDemands, IsMaxDemandSet};

use crate::tour::Tour;
use plan_types::{OutOfMemory, Request};
use std::alloc::Global;

/// Returns the greatest demand that a single may have in each of these tours.
pub(crate) fn max_demands_of(alloc: Global, tours: &[Tour]) -> Result<Vec<i64>, OutOfMemory>
    ensures { IfOk result (λ max_demands. AreMaxDemands tours.now max_demands.items) }
{
    let mut max_demands = Vec::with_capacity(alloc, tours.len())?;
    for index in 0..tours.len() {
        max_demands.push(tours[index].table().max_demand())?;
    }
    Ok(max_demands)
}

/// Sets the greatest demand of a vehicle to that of its present tour.
pub(crate) fn set_max_demand(max_demands: &mut Vec<i64>, vehicle: u32, tour: &Tour)
    requires { 1 ≤ vehicle }
    ensures { IsMaxDemandSet vehicle tour.now max_demands.old.items max_demands.new.items }
{
    let index = (vehicle - 1) as usize;
    let max_demand = tour.table().max_demand();
    if index < max_demands.len() {
        max_demands[index] = max_demand;
    }
}

/// Returns whether the vehicle with this index is known to be too full for the request. Always false for a
/// pair.
#[inline(always)]
pub(crate) fn is_full(max_demands: &[i64], index: usize, request: &Request) -> bool
    ensures { IsTrue result → (tours : List Course) → AreMaxDemands tours max_demands.now → (c : Course)
        → slice_get tours index ≡ Some c → (below : ℤ) → FitsNowhere c request.now below }
{
    match request {
        Request::Single(stop) => index < max_demands.len()
            && is_above(&stop.demand, &max_demands[index]),
        Request::Pair(_, _) => false,
    }
}

// Returns whether the demand is above the greatest one allowed.
#[inline(always)]
fn is_above(demand: &i32, max_demand: &i64) -> bool
    ensures { IsTrue result → max_demand.now <ℤ demand.now }
{
    *max_demand < i64::from(*demand)
}
