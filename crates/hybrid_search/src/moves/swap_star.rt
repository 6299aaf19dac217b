//! SWAP* (Vidal 2022): two customers of different routes change routes, each to its best place there.
use crate::cells::Table;
use crate::network::Network;
use crate::trips::Trips;
use crate::units::Price;
use plan_types::OutOfMemory;
use std::alloc::Global;

// The price of inserting a customer after another one, or after the depot if that is 0.
#[derive(Clone, Copy, Default)]
struct Insertion {
    price: Price,
    after: u32,
}

// The three cheapest insertions of a customer into a route, and the number of moves when they were found.
#[derive(Clone, Copy, Default)]
struct ThreeBest {
    found: u32,
    insertions: [Insertion; 3],
}

impl ThreeBest {
    // Enters an insertion, if it is cheaper than one of the three.
    fn offer(&mut self, new: Insertion) {
        let [one, two, three] = self.insertions;
        if new.price < one.price {
            self.insertions = [new, one, two];
        } else if new.price < two.price {
            self.insertions = [one, new, two];
        } else if new.price < three.price {
            self.insertions = [one, two, new];
        }
    }
}

// An exchange of U and V, and the customers after which they are inserted. Without a V, 0, only U moves.
#[derive(Clone, Copy, Default)]
struct Exchange {
    price: Price,
    u: u32,
    u_after: u32,
    v: u32,
    v_after: u32,
}

impl Exchange {
    fn cheaper(self, other: Exchange) -> Exchange {
        if other.price < self.price {
            other
        } else {
            self
        }
    }
}

/// The cheapest insertions of each customer into each route.
#[derive(Drop)]
pub(crate) struct SwapStar {
    // By route, then by customer.
    known: Table<ThreeBest>,
    trips: u32,
}

impl SwapStar {
    /// Returns a table without insertions.
    pub(crate) fn new(alloc: Global, network: &Network) -> Result<SwapStar, OutOfMemory> {
        let trips = network.vehicles;
        let known = Table::new(alloc, trips, network.size.saturating_add(1))?;
        Ok(SwapStar { known, trips })
    }

    /// Forgets all insertions.
    pub(crate) fn clear(&mut self) {
        self.known.put_rows(self.trips, ThreeBest::default());
    }

    /// Makes the best exchange or relocation between two routes, if it pays.
    pub(crate) fn improve(&mut self, trips: &mut Trips, one: u32, two: u32) {
        self.prepare(trips, one, two);
        self.prepare(trips, two, one);
        let exchange = self.best_exchange(trips, one, two);
        let out = self.best_relocation(trips, one, two);
        let back = self.best_relocation(trips, two, one);
        let best = exchange.cheaper(out).cheaper(back);
        if best.price < Price::ZERO {
            relocate(trips, best.u, best.u_after, one, two);
            relocate(trips, best.v, best.v_after, one, two);
            trips.finish(one, two);
        }
    }

    // Finds the cheapest insertions of one route's customers into another route, if that changed since the last time.
    fn prepare(&mut self, trips: &Trips, from: u32, to: u32) {
        let changed = trips.trip(to).changed;
        for customer in trips.customers(from) {
            if self.known.item(to, *customer).found < changed {
                let best = three_best(trips, *customer, to);
                self.known.put(to, *customer, best);
            }
        }
    }

    fn best_exchange(&self, trips: &Trips, one: u32, two: u32) -> Exchange {
        let mut best = Exchange::default();
        for u in trips.customers(one) {
            best = self.best_exchange_of(trips, *u, two, best);
        }
        best
    }

    // Returns the best exchange of U with a customer of route `two`, if it is better than `best`.
    fn best_exchange_of(&self, trips: &Trips, u: u32, two: u32, best: Exchange) -> Exchange {
        let from = trips.node(u);
        let (mine, theirs) = (trips.trip(from.trip), trips.trip(two));
        let saved = mine.penalty + theirs.penalty - from.removal;
        let mut best = best;
        for v in trips.customers(two) {
            let node = trips.node(*v);
            let moved = from.demand - node.demand;
            let penalties = trips.penalty(mine.load - moved) + trips.penalty(theirs.load + moved);
            let fixed = penalties + node.removal - saved;
            // Insertions rarely save anything, so other exchanges hardly ever pay.
            if fixed < Price::ZERO {
                best = best.cheaper(self.exchange(trips, u, *v, fixed));
            }
        }
        best
    }

    // Returns the exchange of U and V, given its price without their insertions.
    #[inline(never)]
    fn exchange(&self, trips: &Trips, u: u32, v: u32, fixed: Price) -> Exchange {
        let to_two = self.replacing(trips, u, v);
        let to_one = self.replacing(trips, v, u);
        Exchange {
            price: fixed + to_two.price + to_one.price,
            u,
            u_after: to_two.after,
            v,
            v_after: to_one.after,
        }
    }

    // Returns the cheapest insertion of a customer into the route that another one leaves: in the place of that
    // customer, or elsewhere. At most two of the three best insertions are at the customer that leaves.
    fn replacing(&self, trips: &Trips, customer: u32, leaving: u32) -> Insertion {
        let node = trips.node(leaving);
        let legs = trips.leg(node.previous, customer) + trips.leg(customer, node.next);
        let in_place = Insertion {
            price: legs - trips.leg(node.previous, node.next),
            after: node.previous,
        };
        for known in self.known.item(node.trip, customer).insertions {
            if known.after != leaving && known.after != node.previous {
                return if known.price < in_place.price {
                    known
                } else {
                    in_place
                };
            }
        }
        in_place
    }

    // Returns the best relocation of a customer of one route into another, if it pays.
    fn best_relocation(&self, trips: &Trips, from: u32, to: u32) -> Exchange {
        let (mine, theirs) = (trips.trip(from), trips.trip(to));
        let saved = mine.penalty + theirs.penalty;
        let mut best = Exchange::default();
        for u in trips.customers(from) {
            let node = trips.node(*u);
            let [cheapest, ..] = self.known.item(to, *u).insertions;
            let u_penalty = trips.penalty(mine.load - node.demand);
            let penalties = u_penalty + trips.penalty(theirs.load + node.demand);
            let price = node.removal + cheapest.price + penalties - saved;
            if price < best.price {
                (best.price, best.u, best.u_after) = (price, *u, cheapest.after);
            }
        }
        best
    }
}

// Returns the three cheapest insertions of a customer into a route.
fn three_best(trips: &Trips, customer: u32, trip: u32) -> ThreeBest {
    let none = Insertion {
        price: Price::MAX,
        after: 0,
    };
    let mut best = ThreeBest {
        found: trips.moves,
        insertions: [none; 3],
    };
    let mut after = 0;
    for next in trips.customers(trip) {
        let legs = trips.leg(after, customer) + trips.leg(customer, *next);
        let price = legs - trips.node(*next).leg_before;
        best.offer(Insertion { price, after });
        after = *next;
    }
    let legs = trips.leg(after, customer) + trips.leg(customer, 0);
    let price = legs - trips.node(after).leg_after;
    best.offer(Insertion { price, after });
    best
}

// Moves a customer, if it is not 0, to the other one of two routes.
fn relocate(trips: &mut Trips, customer: u32, after: u32, one: u32, two: u32) {
    if customer == 0 {
        return;
    }
    let node = trips.node(customer);
    trips.link(node.trip, node.previous, node.next);
    let other = if node.trip == one { two } else { one };
    let next = match after {
        0 => trips.trip(other).first,
        _ => trips.node(after).next,
    };
    trips.link(other, after, customer);
    trips.link(other, customer, next);
}
