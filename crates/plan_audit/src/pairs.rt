//! The pair that a stop belongs to.
ghost use Rattle.std.specs.Prelude.{◌≡◌, ℕ, ◌<◌, List, Option};
ghost use Rattle.plan_audit.specs.FirstFault.{position_of, missing_at, early_delivery_at};
ghost use Rattle.plan_audit.specs.declared.first_positions.StopPosition.{StopPosition};

use crate::first_positions::StopPosition;
use plan_types::Problem;

/// Returns the partner of `stop`, the other stop of its pair, if `first_position` finds no position for the
/// partner.
pub(crate) fn missing_partner<F: Fn(u32) -> Option<StopPosition>>(
    problem: &Problem,
    stop: u32,
    first_position: F,
) -> Option<u32>
    requires { F.IsAlwaysCallable first_position }
    ensures { (routes : List (List ℕ))
        → ((n : ℕ) (o : Option StopPosition) → n < problem.now.next_number → F.post first_position n o
        → o ≡ position_of routes n) → result ≡ missing_at problem.now routes stop }
{
    let partner = problem.partner_of(stop)?;
    match first_position(partner) {
        Some(_) => None,
        None => Some(partner),
    }
}

/// Returns the stop if it is a delivery and the first position of its pickup has a later place than `place`.
pub(crate) fn early_delivery<F: Fn(u32) -> Option<StopPosition>>(
    problem: &Problem,
    place: usize,
    stop: u32,
    first_position: F,
) -> Option<u32>
    requires { F.IsAlwaysCallable first_position }
    ensures { (routes : List (List ℕ))
        → ((n : ℕ) (o : Option StopPosition) → n < problem.now.next_number → F.post first_position n o
        → o ≡ position_of routes n) → result ≡ early_delivery_at problem.now routes place stop }
{
    let first_position = first_position(problem.pickup_of(stop)?)?;
    if place < first_position.place {
        Some(stop)
    } else {
        None
    }
}
