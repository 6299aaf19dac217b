//! The backward pass, which computes the slack of each place: Savelsbergh's forward time slack, stored as a
//! latest start.
//!
//! The forward pass stores stops and distances at each place, so this pass needs nothing else of the schedule.

ghost use Rattle.std.specs.Prelude.{◌≡◌, ◌≤◌, ◌<◌, length};
ghost use Rattle.plan_types.specs.declared.requests.Kind.TheVariants.{LiLim};
ghost use Rattle.slack_tables.specs.BackwardPass.{latest_before, row_before, IsTimely, EachIsTimely, LastMayStart, IsFilled};

use crate::progress::PlaceSlack;
use plan_types::Kind;

/// Computes the latest start and the greatest load of each place except the last, from the next place.
pub(crate) fn fill_slack(kind: Kind, places: &mut [PlaceSlack])
    requires some { 0 < length places.old }
    requires timely { EachIsTimely kind places.old }
    requires last { LastMayStart places.old }
    ensures { IsFilled kind places.old places.new }
{
    for k in (0..places.len() - 1).rev() {
        places[k] = row_before(kind, &places[k], &places[k + 1]);
    }
}

// Returns the place with the latest start and greatest load that follow from the next place.
fn row_before(kind: Kind, place: &PlaceSlack, next: &PlaceSlack) -> PlaceSlack
    requires timely { IsTimely kind place.now next.now }
    requires limit { kind ≡ LiLim → next.now.at.start ≤ next.now.latest_start }
    ensures { result ≡ row_before kind place.now next.now }
{
    PlaceSlack {
        at: place.at,
        latest_start: latest_before(kind, place, next),
        max_load: place.at.load.max(next.max_load),
    }
}

// Returns the latest start from which neither the next window nor a later one is missed.
fn latest_before(kind: Kind, place: &PlaceSlack, next: &PlaceSlack) -> u64
    requires timely { IsTimely kind place.now next.now }
    requires limit { kind ≡ LiLim → next.now.at.start ≤ next.now.latest_start }
    ensures { result ≡ latest_before kind place.now next.now }
{
    match kind {
        Kind::LiLim => {
            let way = next.at.distance - place.at.distance;
            let stay = u64::from(place.at.stop.service) + way;
            next.latest_start.min(u64::from(next.at.stop.latest)) - stay
        }
        Kind::Vrp => u64::MAX,
    }
}
