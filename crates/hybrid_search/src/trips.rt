//! The routes during a local search, as linked lists of customers with prefix sums.
//!
//! They are called trips here, since `plan_types::Route` is a route of a plan.
use crate::cells::{Table, item, put, put_all};
use crate::network::Network;
use crate::sectors::Sector;
use crate::units::{Load, Price};
use plan_types::OutOfMemory;
use std::alloc::Global;

/// A customer and its place in a route. The depot is customer 0, whose node never changes.
#[derive(Clone, Copy, Default)]
pub(crate) struct Node {
    /// The customers before and after this one.
    pub previous: u32,
    pub next: u32,
    pub trip: u32,
    /// The place in the route, counted from 1.
    pub place: u32,
    pub demand: Load,
    /// The load of the customers up to this one.
    pub load: Load,
    /// The legs to the customer and from it.
    pub leg_before: Price,
    pub leg_after: Price,
    /// The change of the route's length if it leaves the customer out. It is rarely positive.
    pub removal: Price,
}

/// A route.
#[derive(Clone, Copy, Default)]
pub(crate) struct Trip {
    /// The first customer, or 0.
    pub first: u32,
    /// The number of customers.
    pub len: u32,
    pub load: Load,
    pub penalty: Price,
    /// The number of moves when the route last changed.
    pub changed: u32,
    /// The sector of the customers, seen from the depot.
    pub sector: Sector,
}

/// The routes that a local search improves.
#[derive(Drop)]
pub(crate) struct Trips {
    pub network: Network,
    nodes: Vec<Node>,
    trips: Vec<Trip>,
    // The customers of each route, in order.
    customers: Table<u32>,
    // The penalty for a unit of overload.
    rate: Price,
    /// The number of moves so far, counted from 1.
    pub moves: u32,
}

impl Trips {
    /// Returns empty routes.
    pub(crate) fn new(alloc: Global, network: Network) -> Result<Trips, OutOfMemory> {
        let places = (network.size as usize).saturating_add(1);
        Ok(Trips {
            nodes: vec![in alloc; Node::default(); places]?,
            trips: vec![in alloc; Trip::default(); network.vehicles as usize]?,
            customers: Table::new(alloc, network.vehicles, network.size)?,
            network,
            rate: Price::ZERO,
            moves: 1,
        })
    }

    /// Removes all customers, and sets the penalty for a unit of overload.
    pub(crate) fn clear(&mut self, rate: Price) {
        self.rate = rate;
        self.moves = 1;
        put_all(&mut self.trips, Trip::default());
    }

    #[inline(always)]
    pub(crate) fn leg(&self, from: u32, to: u32) -> Price {
        self.network.leg(from, to)
    }

    /// Returns the penalty for the load of a route.
    #[inline(always)]
    pub(crate) fn penalty(&self, load: Load) -> Price {
        self.network.penalty(load, self.rate)
    }

    #[inline(always)]
    pub(crate) fn node(&self, customer: u32) -> Node {
        item(&self.nodes, customer)
    }

    #[inline(always)]
    pub(crate) fn trip(&self, trip: u32) -> Trip {
        item(&self.trips, trip)
    }

    /// Returns the customers of a route, in order, as they were when it was last refreshed.
    pub(crate) fn customers(&self, trip: u32) -> &[u32] {
        self.customers.row(trip, self.trip(trip).len)
    }

    /// Returns a route without customers.
    pub(crate) fn empty_trip(&self) -> Option<u32> {
        (0..self.network.vehicles).find(|trip| self.trip(*trip).first == 0)
    }

    /// Makes `next` the successor of `customer` in a route. Either may be the depot.
    #[inline]
    pub(crate) fn link(&mut self, trip: u32, customer: u32, next: u32) {
        if customer == 0 {
            if let Some(trip) = self.trips.get_mut(trip as usize) {
                trip.first = next;
            }
        } else if let Some(node) = self.nodes.get_mut(customer as usize) {
            node.next = next;
        }
        if next != 0 {
            if let Some(node) = self.nodes.get_mut(next as usize) {
                node.previous = customer;
            }
        }
    }

    /// Reverses the customers from `first` to `last`, or to the end of the route if `last` is 0. Leaves their links
    /// to the other customers to the caller. Returns the last one.
    pub(crate) fn reverse(&mut self, first: u32, last: u32) -> u32 {
        let mut at = first;
        for _ in 0..self.network.size {
            let mut node = self.node(at);
            let next = node.next;
            node.next = node.previous;
            node.previous = next;
            put(&mut self.nodes, at, node);
            if at == last || next == 0 {
                return at;
            }
            at = next;
        }
        at
    }

    /// Counts a move, and refreshes the routes that it changed.
    pub(crate) fn finish(&mut self, one: u32, two: u32) {
        self.moves = self.moves.wrapping_add(1);
        self.refresh(one);
        if one != two {
            self.refresh(two);
        }
    }

    /// Computes everything about a route from the links of its customers.
    pub(crate) fn refresh(&mut self, trip: u32) {
        let mut new = self.trip(trip);
        new.len = 0;
        new.load = Load::ZERO;
        new.changed = self.moves;
        new.sector = Sector::new(self.network.site(new.first).direction);
        let (mut previous, mut customer) = (0, new.first);
        for place in 0..self.network.size {
            if customer == 0 {
                break;
            }
            let site = self.network.site(customer);
            let next = self.node(customer).next;
            let (leg_before, leg_after) = (self.leg(previous, customer), self.leg(customer, next));
            new.len = place.wrapping_add(1);
            new.load = new.load + site.demand;
            new.sector = new.sector.with(site.direction);
            let node = Node {
                previous,
                next,
                trip,
                place: new.len,
                demand: site.demand,
                load: new.load,
                leg_before,
                leg_after,
                removal: self.leg(previous, next) - leg_before - leg_after,
            };
            put(&mut self.nodes, customer, node);
            self.customers.put(trip, place, customer);
            (previous, customer) = (customer, next);
        }
        new.penalty = self.penalty(new.load);
        put(&mut self.trips, trip, new);
    }
}
