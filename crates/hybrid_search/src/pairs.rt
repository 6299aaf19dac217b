//! Two customers and what is around them, as the moves read it. U is the customer that moves, and V a customer or
//! depot near it. X comes after U, and Y after V.
use crate::trips::{Node, Trip, Trips};
use crate::units::{Load, Price};

/// A customer in its route, or the depot before the first customer.
#[derive(Clone, Copy)]
pub(crate) struct Spot {
    pub customer: u32,
    pub node: Node,
    /// The node of the next customer.
    pub next: Node,
    pub trip: Trip,
}

/// One or two consecutive customers. `last` is 0 if there is no second one.
#[derive(Clone, Copy)]
pub(crate) struct Segment {
    pub first: u32,
    pub last: u32,
    /// The customers before and after the segment.
    pub before: u32,
    pub after: u32,
    /// The legs to the segment and from it.
    pub legs: Price,
    pub demand: Load,
}

impl Segment {
    /// Returns the segment in the opposite direction.
    #[inline(always)]
    pub(crate) fn reversed(mut self) -> Segment {
        (self.first, self.last) = (self.last, self.first);
        self
    }

    /// Returns whether the segments overlap or follow one another.
    #[inline(always)]
    pub(crate) fn touches(self, other: Segment) -> bool {
        self.last == other.before
            || self.last == other.first
            || other.last == self.before
            || other.last == self.first
    }
}

impl Spot {
    /// Returns a customer in its route.
    #[inline(always)]
    pub(crate) fn of(trips: &Trips, customer: u32) -> Spot {
        let node = trips.node(customer);
        Spot {
            customer,
            node,
            next: trips.node(node.next),
            trip: trips.trip(node.trip),
        }
    }

    /// Returns the depot before the first customer of a route.
    #[inline(always)]
    pub(crate) fn depot(trips: &Trips, trip: u32) -> Spot {
        let record = trips.trip(trip);
        let next = trips.node(record.first);
        let mut node = Node::default();
        node.trip = trip;
        node.next = record.first;
        node.leg_after = next.leg_before;
        Spot {
            customer: 0,
            node,
            next,
            trip: record,
        }
    }

    /// Returns the customer.
    #[inline(always)]
    pub(crate) fn one(&self) -> Segment {
        let node = self.node;
        Segment {
            first: self.customer,
            last: self.customer,
            before: node.previous,
            after: node.next,
            legs: node.leg_before + node.leg_after,
            demand: node.demand,
        }
    }

    /// Returns the customer and the next one.
    #[inline(always)]
    pub(crate) fn two(&self) -> Segment {
        let (node, next) = (self.node, self.next);
        Segment {
            first: self.customer,
            last: node.next,
            before: node.previous,
            after: next.next,
            legs: node.leg_before + next.leg_after,
            demand: node.demand + next.demand,
        }
    }
}

/// U and V.
#[derive(Clone, Copy)]
pub(crate) struct Pair {
    pub u: Spot,
    pub v: Spot,
}

impl Pair {
    /// Returns whether both are in the same route.
    #[inline(always)]
    pub(crate) fn is_one_trip(&self) -> bool {
        self.u.node.trip == self.v.node.trip
    }

    /// Returns whether a move pays that lengthens the routes by `change` and brings this load from U's route to V's.
    #[inline(always)]
    pub(crate) fn pays(&self, trips: &Trips, change: Price, moved: Load) -> bool {
        if self.is_one_trip() {
            return change < Price::ZERO;
        }
        let (u_load, v_load) = (self.u.trip.load - moved, self.v.trip.load + moved);
        self.pays_at(trips, change, u_load, v_load)
    }

    /// Returns whether a move pays that lengthens the routes by `change` and leaves them with these loads.
    #[inline(always)]
    pub(crate) fn pays_at(&self, trips: &Trips, change: Price, u_load: Load, v_load: Load) -> bool {
        let penalties = self.u.trip.penalty + self.v.trip.penalty;
        // Most moves are ruled out before the new penalties are computed.
        change < penalties && change + trips.penalty(u_load) + trips.penalty(v_load) < penalties
    }

    /// Counts a move, and refreshes both routes.
    pub(crate) fn finish(&self, trips: &mut Trips) {
        trips.finish(self.u.node.trip, self.v.node.trip);
    }
}
