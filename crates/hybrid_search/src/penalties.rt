//! The penalty for overload, which follows the share of feasible individuals.
use crate::units::Price;

// The penalty changes after this number of individuals, by how many of them were feasible after education.
const PERIOD: u32 = 100;

// The penalty rises if fewer individuals of a period are feasible than the first number, and falls if more are than
// the second.
const FEW_FEASIBLE: u32 = 15;

const MANY_FEASIBLE: u32 = 25;

/// The penalty for a unit of overload.
#[derive(Clone, Copy)]
pub(crate) struct Penalties {
    pub rate: Price,
    // The number of individuals so far, and that of the feasible ones in this period.
    count: u32,
    feasible: u32,
}

impl Penalties {
    /// Returns the penalty at the beginning.
    pub(crate) fn new(rate: Price) -> Penalties {
        Penalties {
            rate,
            count: 0,
            feasible: 0,
        }
    }

    /// Notes whether an individual was feasible after education.
    pub(crate) fn note(&mut self, is_feasible: bool) {
        if self.count % PERIOD == 0 {
            self.feasible = 0;
        }
        self.feasible = self.feasible.wrapping_add(u32::from(is_feasible));
        self.count = self.count.wrapping_add(1);
    }

    /// Changes the penalty at the end of a period. Returns whether this is one.
    pub(crate) fn adapt(&mut self) -> bool {
        if self.count % PERIOD != 0 {
            return false;
        }
        if self.feasible < FEW_FEASIBLE {
            self.rate = self.rate.percent(120).min(Price::GREATEST_RATE);
        } else if self.feasible > MANY_FEASIBLE {
            self.rate = self.rate.percent(85).max(Price::LEAST_RATE);
        }
        true
    }
}
