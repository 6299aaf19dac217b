//! 2-opt in one route, and 2-opt* between two: two legs are replaced.
use crate::pairs::Pair;
use crate::trips::Trips;

/// Replaces the legs (U, X) and (V, Y) of a route by (U, V) and (X, Y), if that pays. Returns whether it did.
#[inline(always)]
pub(crate) fn two_opt(trips: &mut Trips, pair: &Pair) -> bool {
    let (u, v) = (pair.u.customer, pair.v.customer);
    let (x, y) = (pair.u.node.next, pair.v.node.next);
    if pair.u.node.place > pair.v.node.place || x == v {
        return false;
    }
    let removed = pair.u.node.leg_after + pair.v.node.leg_after;
    let change = trips.leg(u, v) + trips.leg(x, y) - removed;
    if !pair.pays(trips, change, pair.u.node.demand) {
        return false;
    }
    let trip = pair.u.node.trip;
    trips.reverse(x, v);
    trips.link(trip, u, v);
    trips.link(trip, x, y);
    pair.finish(trips);
    true
}

/// Replaces the legs (U, X) and (V, Y) of two routes by (U, V) and (X, Y), if that pays. Returns whether it did.
#[inline(always)]
pub(crate) fn two_opt_star_reversed(trips: &mut Trips, pair: &Pair) -> bool {
    let Pair { u, v } = *pair;
    let added = trips.leg(u.customer, v.customer) + trips.leg(u.node.next, v.node.next);
    let change = added - u.node.leg_after - v.node.leg_after;
    let u_load = u.node.load + v.node.load;
    let v_load = u.trip.load + v.trip.load - u_load;
    if !pair.pays_at(trips, change, u_load, v_load) {
        return false;
    }
    join_reversed(trips, pair);
    pair.finish(trips);
    true
}

// Joins the beginnings of both routes to one route, and their ends to another.
fn join_reversed(trips: &mut Trips, pair: &Pair) {
    let (u, v) = (pair.u.customer, pair.v.customer);
    let (x, y) = (pair.u.node.next, pair.v.node.next);
    let (u_trip, v_trip) = (pair.u.node.trip, pair.v.node.trip);
    if v != 0 {
        trips.reverse(pair.v.trip.first, v);
    }
    trips.link(u_trip, u, v);
    if x == 0 {
        trips.link(v_trip, 0, y);
    } else {
        let last = trips.reverse(x, 0);
        trips.link(v_trip, 0, last);
        trips.link(v_trip, x, y);
    }
}

/// Replaces the legs (U, X) and (V, Y) of two routes by (U, Y) and (V, X), if that pays. Returns whether it did.
#[inline(always)]
pub(crate) fn two_opt_star(trips: &mut Trips, pair: &Pair) -> bool {
    let Pair { u, v } = *pair;
    let added = trips.leg(u.customer, v.node.next) + trips.leg(v.customer, u.node.next);
    let change = added - u.node.leg_after - v.node.leg_after;
    let u_load = u.node.load + v.trip.load - v.node.load;
    let v_load = v.node.load + u.trip.load - u.node.load;
    if !pair.pays_at(trips, change, u_load, v_load) {
        return false;
    }
    trips.link(u.node.trip, u.customer, v.node.next);
    trips.link(v.node.trip, v.customer, u.node.next);
    pair.finish(trips);
    true
}
