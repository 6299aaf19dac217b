//! The routes that vehicles with pins take from a solution.
ghost use Rattle.std.specs.Prelude.{◌≡◌, ◌<◌, IfSome, MatchOption, Some, None, length};
ghost use Rattle.std.specs.List.{position};
ghost use Rattle.vehicle_assignment.specs.Assignments.{begins_with, assign_by_pins, take_route};
ghost use Rattle.vehicle_assignment.specs.AssignedPlan.{Gives};

use crate::faults::AssignmentFault;
use plan_types::{Route, Routes};
use std::alloc::Global;

/// The routes that vehicles have taken, and the remaining ones.
#[derive(Drop)]
pub(crate) struct Assignment {
    /// The route of each vehicle, empty if it has taken none yet.
    pub(crate) assigned: Routes,
    /// The remaining routes in order, with an empty route in place of each taken one.
    pub(crate) remaining: Routes,
}

/// Takes, for each vehicle with a pin in ascending order of number, the first remaining route that begins with
/// its pin.
pub(crate) fn assign_by_pins(
    alloc: Global,
    pins: &[Route],
    routes: Routes,
) -> Result<Assignment, AssignmentFault>
    ensures { Gives result (assign_by_pins 1 pins.now routes) }
{
    let mut remaining = routes;
    let mut assigned = Routes::with_capacity(alloc, pins.len())?;
    for (index, pin) in pins.iter().enumerate() {
        let Some(route) = take_route(alloc, pin.as_slice(), &mut remaining) else {
            return Err(AssignmentFault::PinWithoutRoute(index as u64 + 1));
        };
        assigned.push(route)?;
    }
    Ok(Assignment {
        assigned,
        remaining,
    })
}

// Takes the first route that begins with this pin, or for now an empty route if the pin is empty.
fn take_route(alloc: Global, pin: &[u32], routes: &mut Routes) -> Option<Route>
    ensures { MatchOption result (take_route pin.now routes.old ≡ None)
        (λ route. take_route pin.now routes.old
        ≡ Some (record { route = route; remaining = routes.new })) }
{
    if pin.is_empty() {
        return Some(Route::new(alloc));
    }
    let place = first_match(pin, routes.as_slice())?;
    Some(routes.replace(place, Route::new(alloc)))
}

// Returns the index of the first route that begins with the pin.
fn first_match(pin: &[u32], routes: &[Route]) -> Option<usize>
    ensures place { result ≡ position (begins_with pin.now) routes.now }
    ensures within { IfSome result (λ place. place < length routes.now) }
{
    routes
        .iter()
        .position(|route| route.as_slice().starts_with(pin))
}
