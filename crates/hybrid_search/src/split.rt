//! Split (Prins 2004): cuts a giant tour into routes, at the least price for its order of customers.
use crate::cells::{Table, item, put, put_all};
use crate::individual::Individual;
use crate::network::Network;
use crate::units::{Load, Price};
use plan_types::OutOfMemory;
use std::alloc::Global;

/// The cheapest cuts of the beginnings of a tour.
///
/// The cell (row, place) is for the customers before the place. Without a limit on the routes all cells are in row
/// 0; with a limit, row r is for exactly r routes.
#[derive(Drop)]
pub(crate) struct Split {
    cuts: Table<Cut>,
    size: u32,
}

// A cut at its price, and the place at which its last route begins.
#[derive(Clone, Copy, Default)]
struct Cut {
    price: Price,
    begin: u32,
}

const NO_CUT: Cut = Cut {
    price: Price::MAX,
    begin: 0,
};

// A tour, and what its routes cost.
#[derive(Clone, Copy)]
struct Terms<'a> {
    network: &'a Network,
    tour: &'a [u32],
    // The penalty for a unit of overload.
    rate: Price,
}

impl Split {
    /// Returns an empty table.
    pub(crate) fn new(alloc: Global, network: &Network) -> Result<Split, OutOfMemory> {
        let size = network.size;
        let rows = network.vehicles.saturating_add(1);
        let cuts = Table::new(alloc, rows, size.saturating_add(1))?;
        Ok(Split { cuts, size })
    }

    /// Cuts the tour of an individual into at most `most` routes, at this rate for overload.
    pub(crate) fn split(
        &mut self,
        network: &Network,
        individual: &mut Individual,
        rate: Price,
        most: u32,
    ) {
        let terms = Terms {
            network,
            tour: &individual.tour,
            rate,
        };
        self.fill(terms);
        if self.begin_routes(&mut individual.begins, 0, 0) > most {
            self.fill_rows(terms, most);
            let row = self.best_row(most);
            self.begin_routes(&mut individual.begins, row, 1);
        }
    }

    // Empties the first rows, except for the cut before the first customer.
    fn clear(&mut self, rows: u32) {
        self.cuts.put_rows(rows, NO_CUT);
        self.cuts.put(0, 0, Cut::default());
    }

    // Fills row 0 with cuts into any number of routes.
    fn fill(&mut self, terms: Terms) {
        self.clear(1);
        for place in 0..self.size {
            self.extend(terms, place, 0, 0);
        }
    }

    // Fills the rows up to that of `most` routes.
    fn fill_rows(&mut self, terms: Terms, most: u32) {
        self.clear(most.saturating_add(1));
        for row in 0..most {
            self.fill_row(terms, row);
        }
    }

    fn fill_row(&mut self, terms: Terms, row: u32) {
        for place in row..self.size {
            self.extend(terms, place, row, row.wrapping_add(1));
        }
    }

    // Extends the cut before a place by each route that begins there, up to the first that is overloaded by more
    // than half. The new cuts are in row `to`.
    fn extend(&mut self, terms: Terms, place: u32, from: u32, to: u32) {
        let network = terms.network;
        let mut price = self.cuts.item(from, place).price;
        if price >= Price::MAX {
            return;
        }
        let mut load = Load::ZERO;
        let mut last = 0;
        for end in place..self.size {
            if load > network.capacity.and_a_half() {
                return;
            }
            let customer = item(terms.tour, end);
            load = load + network.site(customer).demand;
            price = price + network.leg(last, customer);
            let whole = price + network.leg(customer, 0) + network.penalty(load, terms.rate);
            self.offer(to, end.wrapping_add(1), whole, place);
            last = customer;
        }
    }

    fn offer(&mut self, row: u32, place: u32, price: Price, begin: u32) {
        if price < self.cuts.item(row, place).price {
            self.cuts.put(row, place, Cut { price, begin });
        }
    }

    // Returns the number of routes, at most `most`, of the cheapest cut.
    fn best_row(&self, most: u32) -> u32 {
        let mut best = most;
        for row in 1..most {
            if self.cuts.item(row, self.size).price < self.cuts.item(best, self.size).price {
                best = row;
            }
        }
        best
    }

    // Marks the beginnings of the routes, from the last one to the first, and returns their number. The row falls by
    // `step` with each route.
    fn begin_routes(&self, begins: &mut [bool], row: u32, step: u32) -> u32 {
        put_all(begins, false);
        let mut row = row;
        let mut end = self.size;
        let mut routes = 0u32;
        for _ in 0..=self.size {
            if end == 0 {
                return routes;
            }
            end = self.cuts.item(row, end).begin;
            put(begins, end, true);
            row = row.saturating_sub(step);
            routes = routes.wrapping_add(1);
        }
        routes
    }
}
