//! Swaps: one or two customers change places with one or two others.
use crate::pairs::{Pair, Segment};
use crate::trips::Trips;

/// Exchanges a segment from U on with one from V on, if that pays. Returns whether it did.
#[inline(always)]
pub(crate) fn swap(trips: &mut Trips, pair: &Pair, one: Segment, two: Segment) -> bool {
    if one.last == 0 || two.last == 0 || one.touches(two) {
        return false;
    }
    let first = trips.leg(one.before, two.first) + trips.leg(two.last, one.after);
    let second = trips.leg(two.before, one.first) + trips.leg(one.last, two.after);
    let change = first + second - one.legs - two.legs;
    if !pair.pays(trips, change, one.demand - two.demand) {
        return false;
    }
    let (u_trip, v_trip) = (pair.u.node.trip, pair.v.node.trip);
    trips.link(u_trip, one.before, two.first);
    trips.link(u_trip, two.last, one.after);
    trips.link(v_trip, two.before, one.first);
    trips.link(v_trip, one.last, two.after);
    pair.finish(trips);
    true
}
