//! Relocations: one or two customers move to another place.
use crate::pairs::{Pair, Segment};
use crate::trips::Trips;

/// Moves U, or U and X, or X and U, between V and Y: the first of these that pays. Returns whether one does.
#[inline(always)]
pub(crate) fn relocate(trips: &mut Trips, pair: &Pair) -> bool {
    let Pair { u, v } = *pair;
    if v.node.next == u.customer {
        return false;
    }
    let has_two = u.node.next != 0 && u.node.next != v.customer;
    relocate_segment(trips, pair, u.one())
        || (has_two
            && (relocate_segment(trips, pair, u.two())
                || relocate_segment(trips, pair, u.two().reversed())))
}

// Moves a segment between V and Y, if that pays. Returns whether it did.
#[inline(always)]
fn relocate_segment(trips: &mut Trips, pair: &Pair, moved: Segment) -> bool {
    let (from, to) = (pair.u.node.trip, pair.v.node.trip);
    let (v, y) = (pair.v.customer, pair.v.node.next);
    let closed = trips.leg(moved.before, moved.after) - moved.legs;
    let opened = trips.leg(v, moved.first) + trips.leg(moved.last, y) - pair.v.node.leg_after;
    if !pair.pays(trips, closed + opened, moved.demand) {
        return false;
    }
    trips.link(from, moved.before, moved.after);
    trips.link(to, v, moved.first);
    if moved.first != moved.last {
        trips.link(to, moved.first, moved.last);
    }
    trips.link(to, moved.last, y);
    pair.finish(trips);
    true
}
