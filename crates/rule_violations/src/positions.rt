//! The first position of a stop.
ghost use Rattle.std.specs.Prelude.{◌≡◌};
ghost use Rattle.plan_audit.specs.FirstFault.{place_of};
ghost use Rattle.rule_violations.specs.Positions.{first_position};

use plan_types::Route;

/// A position in a solution as it is printed: routes and places count from 1.
#[derive(Clone, Copy, Debug, PartialEq, Eq)]
pub struct PrintedPosition {
    pub route: u64,
    pub place: u64,
}

/// Returns the first position of a stop in the routes.
pub fn first_position(routes: &[Route], stop: u32) -> Option<PrintedPosition>
    ensures { result ≡ first_position routes.now stop }
{
    for (number, route) in routes.iter().enumerate() {
        if let Some(place) = place_in(route.as_slice(), stop) {
            return Some(PrintedPosition {
                route: number as u64 + 1,
                place,
            });
        }
    }
    None
}

// Returns the first place of a stop in a route.
fn place_in(route: &[u32], stop: u32) -> Option<u64>
    ensures { result ≡ place_of stop 1 route.now }
{
    for (place, other) in route.iter().enumerate() {
        if *other == stop {
            return Some(place as u64 + 1);
        }
    }
    None
}
