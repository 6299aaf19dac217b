//! The latest arrival at each row of a route: a vehicle that arrives later is late at this row or at a later
//! one.
//!
//! One backward pass over windows, services and legs computes them. It does not count the waiting for a window
//! to open, so a vehicle that arrives in time may still be late at a later row.
ghost use Rattle.std.specs.Prelude.{◌≡◌, ◌<◌, ◌+◌, length, IfOk};
ghost use Rattle.request_explanation.specs.LatestArrivals.{AreLatestArrivals, AreLatestArrivalsFrom, IsDue, IsLatestArrival};

use plan_explain::Row;
use plan_types::OutOfMemory;
use std::alloc::Global;

/// Returns the latest arrivals at these rows.
pub(crate) fn latest_arrivals_of(alloc: Global, rows: &[Row]) -> Result<Vec<u64>, OutOfMemory>
    ensures { IfOk result (λ latest_arrivals. AreLatestArrivals rows.now latest_arrivals.items) }
{
    let mut latest_arrivals = vec![in alloc; 0; rows.len()]?;
    fill_latest_arrivals(rows, latest_arrivals.as_mut_slice());
    Ok(latest_arrivals)
}

// Sets the latest arrival at each row, from the last row to the first.
fn fill_latest_arrivals(rows: &[Row], latest_arrivals: &mut [u64])
    requires { length latest_arrivals.old ≡ length rows.now }
    ensures { AreLatestArrivals rows.now latest_arrivals.new }
{
    for k in (0..rows.len()).rev() {
        latest_arrivals[k] = latest_arrival_at(rows, latest_arrivals, k);
    }
}

// Returns the latest arrival at one row if those at later rows are known.
fn latest_arrival_at(rows: &[Row], latest_arrivals: &[u64], index: usize) -> u64
    requires within { index < length rows.now }
    requires following { AreLatestArrivalsFrom (index + 1) rows.now latest_arrivals.now }
    ensures late { IsLatestArrival rows.now index result }
    ensures due { IsDue rows.now latest_arrivals.now index result }
{
    let row = &rows[index];
    let latest = u64::from(row.latest);
    if index + 1 == rows.len() {
        return latest;
    }
    let way = rows[index + 1].arrival.saturating_sub(row.start);
    latest.min(latest_arrivals[index + 1].saturating_sub(way))
}
