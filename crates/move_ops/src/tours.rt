//! The tours of a plan: how they are built, searched for stops, and copied.
ghost use Rattle.std.specs.Prelude.{◌≡◌, ◌≤◌, [], true, ℕ, IfOk, length};
ghost use Rattle.plan_audit.specs.Passes.{passes};
ghost use Rattle.route_sched.specs.Cost.{has_stop};
ghost use Rattle.move_ops.specs.Changes.{IsVehicleWith};
ghost use Rattle.move_ops.specs.Drafts.{AreIdleAfter};
ghost use Rattle.move_ops.specs.DraftInvariant.{AreVehicleHints};
ghost use Rattle.move_ops.specs.Tables.{plan_of, tables_of};

use crate::facts::problem_keeps_limits;
use crate::lists::is_in;
use crate::tour::Tour;
use crate::vehicle_hints::set_hints;
use plan_audit::{feasible_alone_decides_feasibility, passing_is_local, plans_are_disjoint_routes};
use plan_types::{OutOfMemory, Problem, Route, Routes};
use std::alloc::Global;

/// Builds the tours of the routes of a plan that passes.
pub(crate) fn tours_of(
    alloc: Global,
    problem: &Problem,
    routes: &[Route],
) -> Result<Vec<Tour>, OutOfMemory>
    requires { passes problem.now [] routes.now ≡ true }
    ensures tours { IfOk result (λ tours. tours.items ≡ tables_of problem.now routes.now) }
    ensures plan { IfOk result (λ tours. plan_of tours.items ≡ routes.now) }
{
    passing_is_local();
    plans_are_disjoint_routes();
    feasible_alone_decides_feasibility();
    problem_keeps_limits(problem);
    let mut tours = Vec::with_capacity(alloc, routes.len())?;
    for route in routes {
        tours.push(Tour::build(alloc, problem, route.as_slice())?)?;
    }
    Ok(tours)
}

/// Returns the vehicle hints for these tours: for each stop number, the vehicle to look at first.
pub(crate) fn vehicle_hints_of(
    alloc: Global,
    tours: &[Tour],
    len: usize,
) -> Result<Vec<u32>, OutOfMemory>
    ensures { IfOk result (λ vehicle_hints. AreVehicleHints vehicle_hints.items (plan_of tours.now)) }
{
    let mut vehicle_hints = vec![in alloc; 0; len]?;
    set_hints_of_tours(&mut vehicle_hints, tours);
    Ok(vehicle_hints)
}

fn set_hints_of_tours(vehicle_hints: &mut [u32], tours: &[Tour])
    ensures vehicle_hints { AreVehicleHints vehicle_hints.new (plan_of tours.now) }
    ensures len { length vehicle_hints.new ≡ length vehicle_hints.old }
{
    let mut vehicle = 1;
    for tour in tours {
        set_hints(vehicle_hints, tour.stops(), vehicle);
        vehicle = next(vehicle);
    }
}

fn next(vehicle: u32) -> u32
    ensures { 1 ≤ result }
{
    vehicle.saturating_add(1)
}

/// Returns a copy of the routes, without their tables.
pub(crate) fn routes_of(alloc: Global, tours: &[Tour]) -> Result<Routes, OutOfMemory>
    ensures { IfOk result (λ routes. routes ≡ plan_of tours.now) }
{
    let mut routes = Routes::with_capacity(alloc, tours.len())?;
    for tour in tours {
        routes.push(Route::from(Vec::from_slice(alloc, tour.stops())?))?;
    }
    Ok(routes)
}

/// Returns the first vehicle whose tour has the stop, or 0 if none has it.
pub(crate) fn vehicle_with(tours: &[Tour], stop: u32) -> u64
    ensures { IsVehicleWith (plan_of tours.now) stop result }
{
    for index in 0..tours.len() {
        if is_in(tours[index].stops(), stop) {
            return index as u64 + 1;
        }
    }
    0
}

/// Returns the smallest length of the used part: no vehicle after it has a stop. The result is at most `end`,
/// and the caller guarantees that no vehicle after `end` has a stop.
pub(crate) fn used_len_of(tours: &[Tour], end: usize) -> usize
    requires within { end ≤ length tours.now }
    requires idle { AreIdleAfter end (plan_of tours.now) }
    ensures within { result ≤ end }
    ensures idle { AreIdleAfter result (plan_of tours.now) }
{
    let mut used_len = end;
    while 0 < used_len {
        if tours[used_len - 1].stop_count() != 0 {
            return used_len;
        }
        used_len -= 1;
    }
    used_len
}
