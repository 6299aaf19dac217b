//! An individual: a plan as a giant tour that is cut into routes.
use crate::cells::{item, put, put_all, range};
use crate::network::Network;
use crate::units::{Load, Price};
use plan_types::OutOfMemory;
use std::alloc::Global;

/// A plan of all customers, feasible or not.
#[derive(Clone, Drop)]
pub(crate) struct Individual {
    /// The giant tour: the customers of all routes, route after route.
    pub tour: Vec<u32>,
    /// Whether a route begins at this place of the tour.
    pub begins: Vec<bool>,
    /// For each customer the one before it in its route, or 0. The depot has place 0.
    pub previous: Vec<u32>,
    /// For each customer the one after it in its route, or 0.
    pub next: Vec<u32>,
    /// The length of all routes.
    pub distance: Price,
    /// The sum of what the routes carry above the capacity.
    pub excess: Load,
    /// The number of routes.
    pub routes: u32,
}

impl Individual {
    /// Returns an individual that drives one route through all customers.
    pub(crate) fn new(alloc: Global, size: u32) -> Result<Individual, OutOfMemory> {
        let nodes = (size as usize).saturating_add(1);
        let tour = range(alloc, 1, size)?;
        let begins = vec![in alloc; false; size as usize]?;
        let previous = vec![in alloc; 0; nodes]?;
        let next = vec![in alloc; 0; nodes]?;
        Ok(Individual {
            tour,
            begins,
            previous,
            next,
            distance: Price::MAX,
            excess: Load::ZERO,
            routes: 0,
        })
    }

    /// Returns whether no route exceeds the capacity.
    pub(crate) fn is_feasible(&self) -> bool {
        self.excess == Load::ZERO
    }

    /// Returns the distance with the penalty for overload at this rate.
    pub(crate) fn price(&self, rate: Price) -> Price {
        self.distance + self.excess.at_rate(rate)
    }

    /// Computes everything else from the tour and the beginnings of its routes.
    pub(crate) fn measure(&mut self, network: &Network) {
        self.distance = Price::ZERO;
        self.excess = Load::ZERO;
        self.routes = 0;
        let mut last = 0;
        let mut load = Load::ZERO;
        for place in 0..network.size {
            let customer = item(&self.tour, place);
            if item(&self.begins, place) {
                self.end_route(network, last, load);
                last = 0;
                load = Load::ZERO;
            }
            self.distance = self.distance + network.leg(last, customer);
            load = load + network.site(customer).demand;
            put(&mut self.previous, customer, last);
            put(&mut self.next, last, customer);
            last = customer;
        }
        self.end_route(network, last, load);
    }

    // Adds the return of a route after its last customer. There is no route if that is the depot.
    fn end_route(&mut self, network: &Network, last: u32, load: Load) {
        if last != 0 {
            self.distance = self.distance + network.leg(last, 0);
            self.excess = self.excess + load.above(network.capacity);
            self.routes = self.routes.wrapping_add(1);
            put(&mut self.next, last, 0);
        }
    }

    /// Returns the broken pairs distance: the number of customers that have other neighbours in the other
    /// individual.
    pub(crate) fn broken_pairs(&self, other: &Individual) -> u32 {
        let mut broken = 0u32;
        for customer in 1..u32::try_from(self.next.len()).unwrap_or(0) {
            let next = item(&self.next, customer);
            let previous = item(&self.previous, customer);
            let other_next = item(&other.next, customer);
            let other_previous = item(&other.previous, customer);
            if next != other_next && next != other_previous {
                broken = broken.wrapping_add(1);
            }
            if previous == 0 && other_previous != 0 && other_next != 0 {
                broken = broken.wrapping_add(1);
            }
        }
        broken
    }

    /// Makes the tour one route.
    pub(crate) fn unite(&mut self) {
        put_all(&mut self.begins, false);
    }

    /// Writes a route into the tour, from this place on. Returns the place after it.
    pub(crate) fn put_route(&mut self, place: u32, customers: &[u32]) -> u32 {
        put(&mut self.begins, place, !customers.is_empty());
        let mut end = place;
        for customer in customers {
            put(&mut self.tour, end, *customer);
            end = end.saturating_add(1);
        }
        end
    }
}
