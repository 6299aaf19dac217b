//! Rule 9, on the number of vehicles, for a printed solution. It need not have one route for each vehicle.
ghost use Rattle.std.specs.Prelude.{◌≡◌, ◌+◌, ◌<◌, ◌^◌, IfSome};
ghost use Rattle.plan_audit.specs.FirstFault.{first_route_beyond};

use plan_types::Route;

/// Returns the index, from 0, of the first nonempty route for which no vehicle is left.
pub(crate) fn first_route_beyond(fleet: u32, routes: &[Route]) -> Option<usize>
    ensures reported { result ≡ first_route_beyond fleet 0 routes.now }
    ensures fits { IfSome result (λ k. k + 1 < 2 ^ 64) }
{
    let mut left = fleet;
    for (number, route) in routes.iter().enumerate() {
        if !route.as_slice().is_empty() {
            if left == 0 {
                return Some(number);
            }
            left -= 1;
        }
    }
    None
}
