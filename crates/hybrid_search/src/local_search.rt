//! Education: a local search from an individual. It makes moves that pay until none is left.
use crate::cells::{item, put, put_all, range};
use crate::chance::Chance;
use crate::individual::Individual;
use crate::moves::relocate::relocate;
use crate::moves::swap::swap;
use crate::moves::swap_star::SwapStar;
use crate::moves::two_opt::{two_opt, two_opt_star, two_opt_star_reversed};
use crate::network::Network;
use crate::pairs::{Pair, Spot};
use crate::sectors::direction;
use crate::trips::Trips;
use crate::units::Price;
use plan_types::OutOfMemory;
use std::alloc::Global;

// The most passes over all customers. A few are enough.
const MOST_PASSES: u32 = 1000;

// One in this many lists of neighbours is shuffled.
const SHUFFLED: u32 = 20;

/// A local search with the lists that it keeps.
#[derive(Drop)]
pub(crate) struct LocalSearch {
    pub trips: Trips,
    swap_star: SwapStar,
    // The customers and the routes, in the order in which their moves are evaluated.
    customers: Vec<u32>,
    order: Vec<u32>,
    // The number of moves when those of a customer were last evaluated, and when SWAP* was last applied to a route.
    customers_tried: Vec<u32>,
    trips_tried: Vec<u32>,
    // The directions of the routes' centres, and the routes.
    directed: Vec<(u16, u32)>,
}

impl LocalSearch {
    /// Returns a local search for a network.
    pub(crate) fn new(alloc: Global, network: Network) -> Result<LocalSearch, OutOfMemory> {
        Ok(LocalSearch {
            swap_star: SwapStar::new(alloc, &network)?,
            customers: range(alloc, 1, network.size)?,
            order: range(alloc, 0, network.vehicles)?,
            customers_tried: vec![in alloc; 0; network.near.len()]?,
            trips_tried: vec![in alloc; 0; network.vehicles as usize]?,
            directed: vec![in alloc; (0, 0); network.vehicles as usize]?,
            trips: Trips::new(alloc, network)?,
        })
    }

    /// Improves an individual until no move pays at this rate for overload.
    pub(crate) fn educate(
        &mut self,
        individual: &mut Individual,
        rate: Price,
        chance: &mut Chance,
    ) {
        self.shuffle(chance);
        self.load(individual, rate);
        for pass in 0..MOST_PASSES {
            let before = self.trips.moves;
            self.pass(pass > 0);
            self.pass_swap_star();
            // The first pass does not look at empty routes, so it is never the last one.
            if pass > 0 && self.trips.moves == before {
                break;
            }
        }
        self.store(individual);
    }

    fn shuffle(&mut self, chance: &mut Chance) {
        chance.shuffle(&mut self.customers);
        chance.shuffle(&mut self.order);
        for near in self.trips.network.near.iter_mut() {
            if chance.below(SHUFFLED) == 0 {
                chance.shuffle(near);
            }
        }
    }

    // Takes the routes from an individual.
    fn load(&mut self, individual: &Individual, rate: Price) {
        self.trips.clear(rate);
        self.swap_star.clear();
        put_all(&mut self.customers_tried, 0);
        put_all(&mut self.trips_tried, 0);
        self.link_all(individual);
        for trip in 0..self.trips.network.vehicles {
            self.trips.refresh(trip);
        }
    }

    fn link_all(&mut self, individual: &Individual) {
        let mut trip = 0u32;
        let mut last = 0;
        for place in 0..self.trips.network.size {
            let is_new = place > 0 && item(&individual.begins, place);
            if is_new && trip.wrapping_add(1) < self.trips.network.vehicles {
                self.trips.link(trip, last, 0);
                trip = trip.wrapping_add(1);
                last = 0;
            }
            let customer = item(&individual.tour, place);
            self.trips.link(trip, last, customer);
            last = customer;
        }
        self.trips.link(trip, last, 0);
    }

    // Evaluates the moves of each customer, and makes those that pay.
    fn pass(&mut self, with_empty: bool) {
        for index in 0..self.trips.network.size {
            let customer = item(&self.customers, index);
            self.improve_customer(customer);
            if with_empty {
                self.improve_by_empty_trip(customer);
            }
        }
    }

    // Evaluates the moves of a customer with each neighbour, if a route of the two changed since the last time.
    fn improve_customer(&mut self, customer: u32) {
        let tried = item(&self.customers_tried, customer);
        put(&mut self.customers_tried, customer, self.trips.moves);
        let mut u = Spot::of(&self.trips, customer);
        for index in 0..self.trips.network.size {
            let Some(other) = self.trips.network.near(customer, index) else {
                return;
            };
            let changed = self.trips.trip(self.trips.node(other).trip).changed;
            if u.trip.changed.max(changed) > tried && self.improve_pair(u, other) {
                u = Spot::of(&self.trips, customer);
            }
        }
    }

    // Makes the first move of U that pays, to V or, if V is the first of its route, to the depot before V. Returns
    // whether there is one.
    fn improve_pair(&mut self, u: Spot, other: u32) -> bool {
        let v = Spot::of(&self.trips, other);
        if self.improve_at_customer(&Pair { u, v }) {
            return true;
        }
        if v.node.previous != 0 {
            return false;
        }
        let v = Spot::depot(&self.trips, v.node.trip);
        self.improve_at_depot(&Pair { u, v })
    }

    #[inline(always)]
    fn improve_at_customer(&mut self, pair: &Pair) -> bool {
        let trips = &mut self.trips;
        let Pair { u, v } = *pair;
        // Swaps of equal numbers of customers are evaluated once for two customers.
        let is_first = u.customer <= v.customer;
        relocate(trips, pair)
            || (is_first && swap(trips, pair, u.one(), v.one()))
            || swap(trips, pair, u.two(), v.one())
            || (is_first && swap(trips, pair, u.two(), v.two()))
            || if pair.is_one_trip() {
                two_opt(trips, pair)
            } else {
                two_opt_star_reversed(trips, pair) || two_opt_star(trips, pair)
            }
    }

    fn improve_at_depot(&mut self, pair: &Pair) -> bool {
        let trips = &mut self.trips;
        relocate(trips, pair)
            || (!pair.is_one_trip()
                && (two_opt_star_reversed(trips, pair) || two_opt_star(trips, pair)))
    }

    // Moves a customer, alone or with others, into a route without customers, if that pays.
    fn improve_by_empty_trip(&mut self, customer: u32) {
        if let Some(empty) = self.trips.empty_trip() {
            let u = Spot::of(&self.trips, customer);
            let v = Spot::depot(&self.trips, empty);
            let pair = Pair { u, v };
            let _ = relocate(&mut self.trips, &pair) || two_opt_star(&mut self.trips, &pair);
        }
    }

    // Applies SWAP* to each pair of routes.
    fn pass_swap_star(&mut self) {
        for index in 0..self.trips.network.vehicles {
            let trip = item(&self.order, index);
            if self.trips.trip(trip).first != 0 {
                self.improve_trip(trip);
            }
        }
    }

    // Applies SWAP* to a route and each with a greater number whose sector overlaps, if one of the two changed since
    // the last time.
    fn improve_trip(&mut self, one: u32) {
        let tried = item(&self.trips_tried, one);
        put(&mut self.trips_tried, one, self.trips.moves);
        for index in 0..self.trips.network.vehicles {
            let two = item(&self.order, index);
            let (mine, theirs) = (self.trips.trip(one), self.trips.trip(two));
            if one < two
                && mine.first != 0
                && theirs.first != 0
                && mine.changed.max(theirs.changed) > tried
                && mine.sector.overlaps(theirs.sector)
            {
                self.swap_star.improve(&mut self.trips, one, two);
            }
        }
    }

    // Writes the routes into an individual, in the order of their directions.
    fn store(&mut self, individual: &mut Individual) {
        for trip in 0..self.trips.network.vehicles {
            let direction = self.centre(trip);
            put(&mut self.directed, trip, (direction, trip));
        }
        self.directed.sort_unstable();
        individual.unite();
        let mut place = 0;
        for (_, trip) in self.directed.iter() {
            place = individual.put_route(place, self.trips.customers(*trip));
        }
        individual.measure(&self.trips.network);
    }

    // Returns the direction of the centre of a route's customers.
    fn centre(&self, trip: u32) -> u16 {
        let (mut x, mut y) = (0i64, 0i64);
        for customer in self.trips.customers(trip) {
            let site = self.trips.network.site(*customer);
            x = x.wrapping_add(site.x);
            y = y.wrapping_add(site.y);
        }
        direction(x, y)
    }
}
