//! The routes that vehicles without pins take from the remaining ones.
ghost use Rattle.std.specs.Prelude.{◌≡◌, ◌∷◌, IfOk, OnOk, ℕ, List};
ghost use Rattle.std.specs.Vec.Iter.{into_iter_items};
ghost use Rattle.route_sched.specs.Cost.{used_routes};
ghost use Rattle.vehicle_assignment.specs.Assignments.{fill_empty, padded};

use plan_types::{OutOfMemory, Route, Routes};
use std::alloc::Global;
use std::vec::IntoIter;

/// Appends empty routes, up to one route for each vehicle of the fleet.
pub(crate) fn pad(alloc: Global, assigned: &mut Routes, fleet: u32) -> Result<(), OutOfMemory>
    ensures { OnOk result (assigned.new ≡ padded fleet assigned.old) }
{
    let count = assigned.as_slice().len();
    for _ in count..fleet as usize {
        assigned.push(Route::new(alloc))?;
    }
    Ok(())
}

/// Replaces each empty route of a vehicle by the next nonempty one of the remaining routes.
pub(crate) fn fill_empty(
    alloc: Global,
    assigned: Routes,
    remaining: Routes,
) -> Result<Routes, OutOfMemory>
    ensures { IfOk result (λ routes. routes ≡ fill_empty assigned (used_routes remaining)) }
{
    let mut used = used_routes(alloc, remaining)?.into_vec().into_iter();
    let assigned = assigned.into_vec();
    let mut routes = Routes::with_capacity(alloc, assigned.len())?;
    for seat in assigned {
        routes.push(route_or_next(seat, &mut used))?;
    }
    Ok(routes)
}

// Returns the routes that are not empty.
fn used_routes(alloc: Global, routes: Routes) -> Result<Routes, OutOfMemory>
    ensures { IfOk result (λ used. used ≡ used_routes routes) }
{
    let mut used = Routes::new(alloc);
    for route in routes.into_vec() {
        if !route.as_slice().is_empty() {
            used.push(route)?;
        }
    }
    Ok(used)
}

// Returns the route of a vehicle, or the next route if it has none.
fn route_or_next(seat: Route, used: &mut IntoIter<Route>) -> Route
    ensures { (assigned : List (List ℕ)) → fill_empty (seat ∷ assigned) (into_iter_items used.old)
        ≡ result ∷ fill_empty assigned (into_iter_items used.new) }
{
    if !seat.as_slice().is_empty() {
        return seat;
    }
    match used.next() {
        Some(route) => route,
        None => seat,
    }
}
