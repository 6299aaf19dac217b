//! The vehicle to look at first for each stop, or 0 if no route has the stop. Also marks for the stops of
//! routes.
ghost use Rattle.std.specs.Prelude.{◌≡◌, ◌≤◌, ◌<◌, ◌||◌, ◌⊎◌, nat_eq, ℕ, false, true, Some, slice_get, slice_index_or, IfOk, length};
ghost use Rattle.plan_audit.specs.Passes.{has};
ghost use Rattle.route_sched.specs.Cost.{has_stop};

use plan_types::{OutOfMemory, Route};
use std::alloc::Global;

/// Sets the hints of these stops to this vehicle.
#[tactic(auto, using(crate::proofs::DraftLemmas::has_more))]
pub(crate) fn set_hints(vehicle_hints: &mut [u32], stops: &[u32], vehicle: u32)
    requires { 1 ≤ vehicle }
    ensures stops { (n : ℕ) → slice_get vehicle_hints.new n ≡ Some 0 → has stops.now n ≡ false }
    ensures others { (n : ℕ) → slice_get vehicle_hints.new n ≡ Some 0 → slice_get vehicle_hints.old n ≡ Some 0 }
    ensures len { length vehicle_hints.new ≡ length vehicle_hints.old }
{
    for stop in stops {
        set_hint(vehicle_hints, *stop, vehicle);
    }
}

#[tactic(auto, using(crate::proofs::DraftLemmas::hint_set, crate::proofs::DraftLemmas::hint_outside))]
fn set_hint(vehicle_hints: &mut [u32], stop: u32, vehicle: u32)
    requires { 1 ≤ vehicle }
    ensures set_hints { (n : ℕ) → slice_get vehicle_hints.new n ≡ Some 0
        → (nat_eq n stop ≡ false) × (slice_get vehicle_hints.old n ≡ Some 0) }
    ensures len { length vehicle_hints.new ≡ length vehicle_hints.old }
{
    let stop = stop as usize;
    if stop < vehicle_hints.len() {
        vehicle_hints[stop] = vehicle;
    }
}

/// Sets the hint of this stop to 0: no route has the stop.
#[tactic(auto, using(crate::proofs::DraftLemmas::hint_cleared))]
pub(crate) fn clear_hint(vehicle_hints: &mut [u32], stop: u32)
    ensures set_hints { (n : ℕ) → slice_get vehicle_hints.new n ≡ Some 0
        → (n ≡ stop) ⊎ (slice_get vehicle_hints.old n ≡ Some 0) }
    ensures len { length vehicle_hints.new ≡ length vehicle_hints.old }
{
    let stop = stop as usize;
    if stop < vehicle_hints.len() {
        vehicle_hints[stop] = 0;
    }
}

/// Returns for each number below `len` whether it is a stop of one of the routes. Reading this list replaces a
/// search through all routes for each number.
pub fn marks(alloc: Global, routes: &[Route], len: usize) -> Result<Vec<bool>, OutOfMemory>
    ensures len { IfOk result (λ marks. length marks.items ≡ len) }
    ensures marks { IfOk result (λ marks. (n : ℕ) → n < length marks.items
        → slice_index_or marks.items n false ≡ has_stop routes.now n) }
{
    let mut marks = vec![in alloc; false; len]?;
    for route in routes {
        mark_stops(&mut marks, route.as_slice());
    }
    Ok(marks)
}

fn mark_stops(marks: &mut [bool], stops: &[u32])
    ensures marks { (n : ℕ) → n < length marks.old
        → slice_index_or marks.new n false ≡ (slice_index_or marks.old n false || has stops.now n) }
    ensures len { length marks.new ≡ length marks.old }
{
    for stop in stops {
        let stop = *stop as usize;
        if stop < marks.len() {
            marks[stop] = true;
        }
    }
}
