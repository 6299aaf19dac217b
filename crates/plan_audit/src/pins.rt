//! Rule 10, on pins. A missing route counts as empty, and so does a missing pin.
ghost use Rattle.std.specs.Prelude.{◌≡◌, ◌+◌, ◌<◌, ◌^◌, [], IfSome, unwrap_or, slice_get};
ghost use Rattle.plan_audit.specs.FirstFault.{first_place_fault, first_pin_mismatch, pin_mismatch_at};

use crate::faults::{Fault, PlaceFault, first_fault, first_place_fault};
use plan_types::Route;

/// Returns the first place at which a route differs from its pin, with the pin's stop.
pub(crate) fn first_pin_mismatch(routes: &[Route], pins: &[Route]) -> Option<Fault>
    ensures reported { result ≡ first_pin_mismatch routes.now pins.now }
    ensures route { IfSome result (λ f. f.route + 1 < 2 ^ 64) }
    ensures place { IfSome result (λ f. f.place + 1 < 2 ^ 64) }
{
    first_fault(
        pins,
        |number, pin| pin_mismatch(stops_at(routes, number), pin),
    )
}

// Returns the stops of the route with this number, or none if there is no such route.
fn stops_at(routes: &[Route], number: usize) -> &[u32]
    ensures { result.now ≡ unwrap_or (slice_get routes.now number) [] }
{
    match routes.get(number) {
        Some(route) => route.as_slice(),
        None => &[],
    }
}

// Returns the first place at which the route differs from the pin.
fn pin_mismatch(route: &[u32], pin: &[u32]) -> Option<PlaceFault>
    ensures reported { result ≡ first_place_fault (pin_mismatch_at route.now) 0 pin.now }
    ensures fits { IfSome result (λ t. t.place + 1 < 2 ^ 64) }
{
    first_place_fault(pin, |place, stop| mismatch_at(route, place, stop))
}

// Returns the pin's stop if the route has another stop or none at this place.
fn mismatch_at(route: &[u32], place: usize, stop: u32) -> Option<u32>
    ensures { result ≡ pin_mismatch_at route.now place stop }
{
    match route.get(place) {
        Some(found) if *found == stop => None,
        _ => Some(stop),
    }
}
